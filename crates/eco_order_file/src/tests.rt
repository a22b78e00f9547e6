//! Orders and refusals against texts from outside.
use crate::{
    Counted, Gate, GateList, MoveList, NameList, Order, OrderFault, Rule, broken_alone, order_text,
    read_order, rule_text,
};
use eco_common::Name;
use eco_func::read_table;
use std::alloc::Global;
use std::test::Fail;

fn text_of(bytes: Vec<u8>) -> Result<String, Fail> {
    Ok(String::from_utf8(bytes).map_err(|_| "no text")?)
}

/// What a text is read as: the text that is written for its order, or for the rule that it breaks.
fn answer(alloc: Global, text: &[u8]) -> Result<String, Fail> {
    match read_order(alloc, text) {
        Ok(order) => text_of(order_text(alloc, &order)?),
        Err(OrderFault::Broken(rule)) => text_of(rule_text(alloc, 0, &rule)?),
        Err(OrderFault::Memory) => Err("memory".into()),
    }
}

/// The order inv1 of an inverter before the pin D of r1.
const INV: &str =
    r#"{"name":"inv1","by":"ann","nets":["m1"],"gates":[{"name":"g1","inputs":["n1"],"table":"10","output":"m1","near":[3,-4]}],"moves":[{"comp":"r1","pin":"D","from":"n2","to":"m1"}]}"#;

/// What that order is read as where a part of its text is another.
fn changed(alloc: Global, part: &str, other: &str) -> Result<String, Fail> {
    let text = INV.replacen(alloc, part, other, 1)?;
    answer(alloc, text.as_bytes())
}

/// The refusal of a bad field.
fn bad_field(alloc: Global, path: &str) -> Result<String, Fail> {
    Ok(format!(in alloc;
        "{{\"front\":0,\"path\":\"{path}\",\"refusal\":2,\"rule\":\"BadField\"}}"
    )?)
}

/// A part of that order, what stands in its place, and the path of the first bad field.
const OF_ORDERS: [(&str, &str, &str); 15] = [
    (r#""name":"inv1","#, "", "name"),
    (r#""inv1""#, "1", "name"),
    (r#""by":"ann","#, "", "by"),
    (r#""ann""#, "null", "by"),
    (r#""nets":["m1"],"#, "", "nets"),
    (r#"["m1"]"#, "{}", "nets"),
    (r#"["m1"]"#, r#"["m1","m2",true]"#, "nets[2]"),
    (r#""gates":["#, r#""gates":[[],"#, "gates[0]"),
    (r#""gates":["#, r#""gate":["#, "gates"),
    (r#""near":[3,-4]}],"#, r#""near":[3,-4]},7],"#, "gates[1]"),
    (r#""moves":["#, r#""moves":["r1","#, "moves[0]"),
    (r#""moves":["#, r#""move":["#, "moves"),
    (
        r#""to":"m1"}]"#,
        r#""to":"m1"}],"yours":1,"mine":1"#,
        "mine",
    ),
    (r#""by":"ann","#, r#""by":"ann","a.b":0,"#, "a.b"),
    (r#""inv1""#, r#""inv1","name":3"#, "name"),
];

#[test]
fn bad_fields_of_orders(rt: HostRuntime) -> Result<(), Fail> {
    for (part, other, path) in OF_ORDERS {
        let want = bad_field(rt.alloc(), path)?;
        assert_eq!(rt; changed(rt.alloc(), part, other)?.as_str(), want.as_str());
    }
    Ok(())
}

const OF_GATES: [(&str, &str, &str); 17] = [
    (r#""name":"g1","#, "", "gates[0].name"),
    (r#""g1""#, "[]", "gates[0].name"),
    (r#""inputs":["n1"],"#, "", "gates[0].inputs"),
    (r#"["n1"]"#, r#""n1""#, "gates[0].inputs"),
    (
        r#"["n1"]"#,
        r#"["a","b","c","d","e","f","g"]"#,
        "gates[0].inputs",
    ),
    (
        r#"["n1"]"#,
        r#"["a","b","c","d","e","f"]"#,
        "gates[0].table",
    ),
    (r#"["n1"]"#, r#"["n1",""]"#, "gates[0].inputs[1]"),
    (r#"["n1"]"#, r#"["n 1",""]"#, "gates[0].inputs[0]"),
    (r#"["n1"]"#, r#"[2]"#, "gates[0].inputs[0]"),
    (r#""table":"10","#, "", "gates[0].table"),
    (r#""10""#, "10", "gates[0].table"),
    (r#""10""#, r#""100""#, "gates[0].table"),
    (r#""10""#, r#""12""#, "gates[0].table"),
    (r#""10""#, r#""""#, "gates[0].table"),
    (r#""output":"m1","#, "", "gates[0].output"),
    (r#""output":"m1","#, r#""output":{},"#, "gates[0].output"),
    (
        r#""output":"m1","#,
        r#""output":"m\u007f","#,
        "gates[0].output",
    ),
];

#[test]
fn bad_fields_of_gates(rt: HostRuntime) -> Result<(), Fail> {
    for (part, other, path) in OF_GATES {
        let want = bad_field(rt.alloc(), path)?;
        assert_eq!(rt; changed(rt.alloc(), part, other)?.as_str(), want.as_str());
    }
    Ok(())
}

const OF_POINTS: [(&str, &str, &str); 14] = [
    (r#","near":[3,-4]"#, "", "gates[0].near"),
    ("[3,-4]", "false", "gates[0].near"),
    ("[3,-4]", "[]", "gates[0].near"),
    ("[3,-4]", "[3]", "gates[0].near"),
    ("[3,-4]", "[3,-4,5]", "gates[0].near"),
    ("[3,-4]", r#"["3",-4]"#, "gates[0].near[0]"),
    ("[3,-4]", "[2147483648,-4]", "gates[0].near[0]"),
    ("[3,-4]", "[3,-2147483649]", "gates[0].near[1]"),
    ("[3,-4]", "[3,18446744073709551616]", "gates[0].near[1]"),
    ("[3,-4]", "[3.0,-4]", "gates[0].near[0]"),
    ("[3,-4]", "[3,1e0]", "gates[0].near[1]"),
    ("[3,-4]", "[-0,-4]", "gates[0].near[0]"),
    ("[3,-4]", r#"[3,-4],"clock":"ck""#, "gates[0].clock"),
    ("[3,-4]}", r#"[3,-4],"x":1},{}"#, "gates[0].x"),
];

#[test]
fn bad_points_and_other_fields_of_gates(rt: HostRuntime) -> Result<(), Fail> {
    for (part, other, path) in OF_POINTS {
        let want = bad_field(rt.alloc(), path)?;
        assert_eq!(rt; changed(rt.alloc(), part, other)?.as_str(), want.as_str());
    }
    Ok(())
}

const OF_MOVES: [(&str, &str, &str); 12] = [
    (r#""comp":"r1","#, "", "moves[0].comp"),
    (r#""r1""#, "0", "moves[0].comp"),
    (r#""r1""#, r#""""#, "moves[0].comp"),
    (r#""pin":"D","#, "", "moves[0].pin"),
    (r#""D""#, "[]", "moves[0].pin"),
    (r#""from":"n2","#, "", "moves[0].from"),
    (r#""n2""#, "1", "moves[0].from"),
    (r#""n2""#, r#""""#, "moves[0].from"),
    (r#","to":"m1"}]"#, "}]", "moves[0].to"),
    (r#""to":"m1""#, r#""to":null"#, "moves[0].to"),
    (r#""to":"m1""#, r#""to":"\t""#, "moves[0].to"),
    (r#""to":"m1""#, r#""to":"m1","at":1"#, "moves[0].at"),
];

#[test]
fn bad_fields_of_moves(rt: HostRuntime) -> Result<(), Fail> {
    for (part, other, path) in OF_MOVES {
        let want = bad_field(rt.alloc(), path)?;
        assert_eq!(rt; changed(rt.alloc(), part, other)?.as_str(), want.as_str());
    }
    Ok(())
}

/// A part of that order, what stands in its place, and the refusal.
const REFUSED: [(&str, &str, &str); 12] = [
    (
        "inv1",
        "1inv",
        r#"{"front":0,"name":"1inv","refusal":4,"rule":"BadName"}"#,
    ),
    (
        "inv1",
        "",
        r#"{"front":0,"name":"","refusal":4,"rule":"BadName"}"#,
    ),
    (
        "ann",
        "a-b",
        r#"{"front":0,"name":"a-b","refusal":4,"rule":"BadName"}"#,
    ),
    (
        "ann",
        "zo\u{e9}",
        "{\"front\":0,\"name\":\"zo\u{e9}\",\"refusal\":4,\"rule\":\"BadName\"}",
    ),
    (
        r#"["m1"]"#,
        r#"[";"]"#,
        r#"{"front":0,"name":";","refusal":4,"rule":"BadName"}"#,
    ),
    (
        r#"["m1"]"#,
        r#"[""]"#,
        r#"{"front":0,"name":"","refusal":4,"rule":"BadName"}"#,
    ),
    (
        r#"["m1"]"#,
        r#"["\""]"#,
        r#"{"front":0,"name":"\"","refusal":4,"rule":"BadName"}"#,
    ),
    (
        r#"["m1"]"#,
        r#"["MUSTJOIN"]"#,
        r#"{"front":0,"name":"MUSTJOIN","refusal":4,"rule":"BadName"}"#,
    ),
    (
        "\"g1\"",
        "\"_g\"",
        r#"{"front":0,"name":"_g","refusal":4,"rule":"BadName"}"#,
    ),
    (
        r#"["m1"]"#,
        r#"["m1","m2","m1","m2"]"#,
        r#"{"front":0,"name":"m1","refusal":5,"rule":"TwiceNamed"}"#,
    ),
    (
        r#""gates":["#,
        r#""gates":[{"name":"g1","inputs":[],"table":"1","output":"m2","near":null},"#,
        r#"{"front":0,"name":"g1","refusal":5,"rule":"TwiceNamed"}"#,
    ),
    (
        r#""moves":["#,
        r#""moves":[{"comp":"r1","pin":"D","from":null,"to":"m2"},"#,
        r#"{"front":0,"name":"r1/D","refusal":5,"rule":"TwiceNamed"}"#,
    ),
];

#[test]
fn the_first_broken_rule_of_an_order(rt: HostRuntime) -> Result<(), Fail> {
    for (part, other, want) in REFUSED {
        assert_eq!(rt; changed(rt.alloc(), part, other)?.as_str(), want);
    }
    Ok(())
}

/// A part of that order, what stands in its place, and a part of the text that is written for it.
const READ: [(&str, &str, &str); 7] = [
    (
        "ann",
        "ann",
        r#"{"by":"ann","gates":[{"inputs":["n1"],"name":"g1","near":[3,-4],"output":"m1","table":"10"}],"moves":[{"comp":"r1","from":"n2","pin":"D","to":"m1"}],"name":"inv1","nets":["m1"]}"#,
    ),
    // A net and a gate may have one name, and a/b with c is another pin than a with b/c.
    ("\"g1\"", "\"m1\"", r#""name":"m1""#),
    (
        r#""r1","pin":"D","from":"n2","to":"m1"}"#,
        r#""a/b","pin":"c","from":"n2","to":"m1"},{"comp":"a","pin":"b/c","from":null,"to":"m1"}"#,
        r#"{"comp":"a","from":null,"pin":"b/c","to":"m1"}"#,
    ),
    // The last of two equal fields counts.
    (r#""by":"ann""#, r#""by":1,"by":"bob""#, r#""by":"bob""#),
    // An escape stands for its character.
    ("ann", r#"\u0061nn"#, r#""by":"ann""#),
    (
        "[3,-4]",
        "[2147483647,-2147483648]",
        r#""near":[2147483647,-2147483648]"#,
    ),
    (
        r#"["n1"],"table":"10""#,
        r#"["b","a"],"table":"1110""#,
        r#""table":"1110""#,
    ),
];

#[test]
fn orders_are_read_and_written(rt: HostRuntime) -> Result<(), Fail> {
    for (part, other, want) in READ {
        let written = changed(rt.alloc(), part, other)?;
        assert!(rt; written.contains(want));
        assert_eq!(rt;
            answer(rt.alloc(), written.as_bytes())?.as_str(),
            written.as_str()
        );
    }
    Ok(())
}

/// The rule that a text breaks, if any.
fn rule_of(alloc: Global, text: &[u8]) -> Result<String, Fail> {
    let mut line = String::new(alloc);
    if let Err(fault) = read_order(alloc, text) {
        write!(line, "{fault}")?;
    }
    Ok(line)
}

/// The rule that the order breaks where so many of a piece stand in place of a name.
fn named(alloc: Global, name: &str, piece: &str, count: usize) -> Result<String, Fail> {
    let pieces = piece.repeat(alloc, count)?;
    let text = INV.replacen(alloc, name, pieces.as_str(), 1)?;
    rule_of(alloc, text.as_bytes())
}

/// A name of that order, what stands so many times in its place, and the rule that is broken, if any.
const NAMES: [(&str, &str, usize, &str); 14] = [
    ("inv1", "a", 64, ""),
    ("inv1", "a", 65, "BadName"),
    ("ann", "Z", 64, ""),
    ("ann", "Z", 65, "BadName"),
    ("g1", "g", 64, ""),
    ("g1", "g", 65, "BadName"),
    ("m1", "_", 255, ""),
    ("m1", "_", 256, "BadName"),
    ("n1", "~", 1024, ""),
    ("n1", "~", 1025, "BadField"),
    ("r1", "!", 1024, ""),
    ("r1", "!", 1025, "BadField"),
    ("n2", ";", 1024, ""),
    ("n2", ";", 1025, "BadField"),
];

#[test]
fn names_at_their_limits(rt: HostRuntime) -> Result<(), Fail> {
    for (name, piece, count, want) in NAMES {
        assert_eq!(rt; named(rt.alloc(), name, piece, count)?.as_str(), want);
    }
    Ok(())
}

/// The rule that the order breaks where so many of a piece begin one of its lists.
fn longer(alloc: Global, list: &str, piece: &str, count: usize) -> Result<String, Fail> {
    let pieces = piece.repeat(alloc, count)?;
    let other = format!(in alloc; "{list}{pieces}")?;
    let text = INV.replacen(alloc, list, other.as_str(), 1)?;
    rule_of(alloc, text.as_bytes())
}

const NET: &str = r#""m","#;

const GATE: &str = r#"{"name":"g","inputs":[],"table":"1","output":"m","near":null},"#;

const MOVE: &str = r#"{"comp":"c","pin":"p","from":null,"to":"m"},"#;

#[test]
fn lists_at_their_limits(rt: HostRuntime) -> Result<(), Fail> {
    for (list, piece, most) in [
        (r#""nets":["#, NET, 640),
        (r#""gates":["#, GATE, 128),
        (r#""moves":["#, MOVE, 512),
    ] {
        assert_eq!(rt;
            longer(rt.alloc(), list, piece, most - 1)?.as_str(),
            "TwiceNamed"
        );
        assert_eq!(rt; longer(rt.alloc(), list, piece, most)?.as_str(), "TooLarge");
    }
    Ok(())
}

/// Texts that say no order, and the rules that they break.
const OTHERS: [(&[u8], &str); 9] = [
    (b"", "BadJson"),
    (b"{\"name\":\"inv1\",}", "BadJson"),
    (b"{} {}", "BadJson"),
    (b"{\"name\":\"\xff\"}", "BadJson"),
    (b"{\"name\":1e999}", "BadJson"),
    (b"{\"name\":\"\\ud800\"}", "BadJson"),
    (b"[]", "BadField"),
    (b"null", "BadField"),
    (b" {} ", "BadField"),
];

/// The rule that so many lists in one another break.
fn nested(alloc: Global, depth: usize) -> Result<String, Fail> {
    let open = "[".repeat(alloc, depth)?;
    let close = "]".repeat(alloc, depth)?;
    let text = format!(in alloc; "{open}{close}")?;
    rule_of(alloc, text.as_bytes())
}

#[test]
fn texts_that_say_no_order(rt: HostRuntime) -> Result<(), Fail> {
    for (text, want) in OTHERS {
        assert_eq!(rt; rule_of(rt.alloc(), text)?.as_str(), want);
    }
    assert_eq!(rt;
        answer(rt.alloc(), b"[]")?.as_str(),
        bad_field(rt.alloc(), "")?.as_str()
    );
    assert_eq!(rt; nested(rt.alloc(), 127)?.as_str(), "BadField");
    assert_eq!(rt; nested(rt.alloc(), 128)?.as_str(), "BadJson");
    Ok(())
}

fn name(alloc: Global, text: &str) -> Result<Name, Fail> {
    Ok(Name::of(alloc, text.as_bytes())?)
}

/// A rule on the net n1, by its number.
fn rule_on_net(alloc: Global, number: u64) -> Result<Rule, Fail> {
    let net = name(alloc, "n1")?;
    Ok(match number {
        6 => Rule::UnknownNet { net },
        10 => Rule::SupplyDriven { net },
        11 => Rule::NetNameTaken { net },
        12 => Rule::NotOneDriver { net, count: 2 },
        _ => Rule::Loop {
            nets: NameList::of(vec![in alloc; net]?),
        },
    })
}

/// A rule on the pin D of r1, by its number.
fn rule_on_pin(alloc: Global, number: u64) -> Result<Rule, Fail> {
    let comp = name(alloc, "r1")?;
    let pin = name(alloc, "D")?;
    Ok(match number {
        7 => Rule::UnknownPin { comp, pin },
        8 => Rule::WrongFrom {
            comp,
            pin,
            net: None,
        },
        _ => Rule::StockPin { comp, pin },
    })
}

/// The text of a rule by its number, at the front 7.
fn refusal(alloc: Global, number: u64) -> Result<String, Fail> {
    let rule = match number {
        1 => Rule::BadJson,
        3 => Rule::TooLarge {
            what: Counted::Spares,
            count: 129,
        },
        7 | 8 | 9 => rule_on_pin(alloc, number)?,
        _ => rule_on_net(alloc, number)?,
    };
    text_of(rule_text(alloc, 7, &rule)?)
}

const REFUSALS: [(u64, &str); 10] = [
    (1, r#"{"front":7,"refusal":1,"rule":"BadJson"}"#),
    (
        3,
        r#"{"count":129,"front":7,"refusal":3,"rule":"TooLarge","what":"spares"}"#,
    ),
    (
        6,
        r#"{"front":7,"net":"n1","refusal":6,"rule":"UnknownNet"}"#,
    ),
    (
        7,
        r#"{"comp":"r1","front":7,"pin":"D","refusal":7,"rule":"UnknownPin"}"#,
    ),
    (
        8,
        r#"{"comp":"r1","front":7,"net":null,"pin":"D","refusal":8,"rule":"WrongFrom"}"#,
    ),
    (
        9,
        r#"{"comp":"r1","front":7,"pin":"D","refusal":9,"rule":"StockPin"}"#,
    ),
    (
        10,
        r#"{"front":7,"net":"n1","refusal":10,"rule":"SupplyDriven"}"#,
    ),
    (
        11,
        r#"{"front":7,"net":"n1","refusal":11,"rule":"NetNameTaken"}"#,
    ),
    (
        12,
        r#"{"count":2,"front":7,"net":"n1","refusal":12,"rule":"NotOneDriver"}"#,
    ),
    (
        13,
        r#"{"front":7,"nets":["n1"],"refusal":13,"rule":"Loop"}"#,
    ),
];

#[test]
fn refusals_have_the_front_the_rule_and_its_fields(rt: HostRuntime) -> Result<(), Fail> {
    for (number, want) in REFUSALS {
        assert_eq!(rt; refusal(rt.alloc(), number)?.as_str(), want);
    }
    Ok(())
}

/// A gate without inputs.
fn constant(alloc: Global) -> Result<Gate, Fail> {
    let Some(table) = read_table(0, b"1") else {
        return Err("no table".into());
    };
    let inputs = NameList::of(Vec::new(alloc));
    if inputs.as_slice().len() != usize::from(table.inputs()) {
        return Err("another table".into());
    }
    Ok(Gate::new(name(alloc, "g1")?, table, inputs, name(alloc, "k1")?, None))
}

/// The text of an order of that gate, where the order breaks no rule.
fn built(alloc: Global) -> Result<String, Fail> {
    let order = Order {
        name: name(alloc, "one")?,
        by: name(alloc, "bob")?,
        nets: NameList::of(vec![in alloc; name(alloc, "k1")?]?),
        gates: GateList::of(vec![in alloc; constant(alloc)?]?),
        moves: MoveList::of(Vec::new(alloc)),
    };
    match broken_alone(alloc, &order)? {
        Some(_) => Err("broken".into()),
        None => text_of(order_text(alloc, &order)?),
    }
}

#[test]
fn an_order_that_is_built_is_written(rt: HostRuntime) -> Result<(), Fail> {
    let text =
        r#"{"by":"bob","gates":[{"inputs":[],"name":"g1","near":null,"output":"k1","table":"1"}],"moves":[],"name":"one","nets":["k1"]}"#;
    assert_eq!(rt; built(rt.alloc())?.as_str(), text);
    assert_eq!(rt; answer(rt.alloc(), text.as_bytes())?.as_str(), text);
    Ok(())
}
