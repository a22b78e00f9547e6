//! The text of a refusal.

ghost use Rattle.std.specs.Prelude.{◌≡◌, [], ◌∷◌, codes, IfOk};
ghost use Rattle.serde_json.specs.Data.{string};
ghost use Rattle.serde_json.specs.View.{view};
ghost use Rattle.serde_json.specs.Written.{compact_text};
ghost use Rattle.eco_order_file.specs.OrderValues.{name_value as name_value_of, list_value, value_or_null};
ghost use Rattle.eco_order_file.specs.Refusals.{body, counted_word, count_value, rule_value as rule_value_of};

use crate::json::{name_or_null, name_value, names_value};
use crate::rule::{Counted, Rule};
use eco_common::{Memory, Name};
use serde_json::{Value, json};
use std::alloc::{AllocError, Global};

/// What all refusals say: the front, the rule's number and its name.
#[derive(Clone, Copy)]
struct Head {
    front: u64,
    number: u64,
    word: &'static str,
}

fn word_of(what: Counted) -> &'static str
    ensures { result.now ≡ counted_word what }
{
    match what {
        Counted::Nets => "nets",
        Counted::Gates => "gates",
        Counted::Moves => "moves",
        Counted::Spares => "spares",
    }
}

fn plain(alloc: Global, head: Head) -> Result<Value, AllocError>
    ensures { IfOk result (λ v. view v ≡ body head.front head.number head.word.now []) }
{
    json!(in alloc; {"front": head.front, "refusal": head.number, "rule": head.word})
}

fn with_path(alloc: Global, head: Head, path: &Name) -> Result<Value, AllocError>
    ensures { IfOk result (λ v. view v ≡ body head.front head.number head.word.now ((codes "path", name_value_of path.now) ∷ [])) }
{
    let path = name_value(alloc, path)?;
    json!(in alloc; {"front": head.front, "path": path, "refusal": head.number, "rule": head.word})
}

fn with_count(alloc: Global, head: Head, what: Counted, count: usize) -> Result<Value, AllocError>
    ensures { IfOk result (λ v. view v ≡ body head.front head.number head.word.now ((codes "what", string (counted_word what)) ∷ (codes "count", count_value count) ∷ [])) }
{
    json!(in alloc; {"count": count as u64, "front": head.front, "refusal": head.number, "rule": head.word, "what": word_of(what)})
}

fn with_name(alloc: Global, head: Head, name: &Name) -> Result<Value, AllocError>
    ensures { IfOk result (λ v. view v ≡ body head.front head.number head.word.now ((codes "name", name_value_of name.now) ∷ [])) }
{
    let name = name_value(alloc, name)?;
    json!(in alloc; {"front": head.front, "name": name, "refusal": head.number, "rule": head.word})
}

fn with_net(alloc: Global, head: Head, net: &Name) -> Result<Value, AllocError>
    ensures { IfOk result (λ v. view v ≡ body head.front head.number head.word.now ((codes "net", name_value_of net.now) ∷ [])) }
{
    let net = name_value(alloc, net)?;
    json!(in alloc; {"front": head.front, "net": net, "refusal": head.number, "rule": head.word})
}

fn with_pin(alloc: Global, head: Head, comp: &Name, pin: &Name) -> Result<Value, AllocError>
    ensures { IfOk result (λ v. view v ≡ body head.front head.number head.word.now ((codes "comp", name_value_of comp.now) ∷ (codes "pin", name_value_of pin.now) ∷ [])) }
{
    let comp = name_value(alloc, comp)?;
    let pin = name_value(alloc, pin)?;
    json!(in alloc; {"comp": comp, "front": head.front, "pin": pin, "refusal": head.number, "rule": head.word})
}

fn with_present(
    alloc: Global,
    head: Head,
    comp: &Name,
    pin: &Name,
    net: &Option<Name>,
) -> Result<Value, AllocError>
    ensures { IfOk result (λ v. view v ≡ body head.front head.number head.word.now ((codes "comp", name_value_of comp.now) ∷ (codes "pin", name_value_of pin.now) ∷ (codes "net", value_or_null name_value_of net.now) ∷ [])) }
{
    let comp = name_value(alloc, comp)?;
    let net = name_or_null(alloc, net)?;
    let pin = name_value(alloc, pin)?;
    json!(in alloc; {"comp": comp, "front": head.front, "net": net, "pin": pin, "refusal": head.number, "rule": head.word})
}

fn with_drivers(alloc: Global, head: Head, net: &Name, count: usize) -> Result<Value, AllocError>
    ensures { IfOk result (λ v. view v ≡ body head.front head.number head.word.now ((codes "net", name_value_of net.now) ∷ (codes "count", count_value count) ∷ [])) }
{
    let net = name_value(alloc, net)?;
    json!(in alloc; {"count": count as u64, "front": head.front, "net": net, "refusal": head.number, "rule": head.word})
}

fn with_nets(alloc: Global, head: Head, nets: &[Name]) -> Result<Value, AllocError>
    ensures { IfOk result (λ v. view v ≡ body head.front head.number head.word.now ((codes "nets", list_value name_value_of nets.now) ∷ [])) }
{
    let nets = names_value(alloc, nets)?;
    json!(in alloc; {"front": head.front, "nets": nets, "refusal": head.number, "rule": head.word})
}

/// The JSON value of a broken rule.
fn rule_value(alloc: Global, front: u64, rule: &Rule) -> Result<Value, AllocError>
    ensures { IfOk result (λ v. view v ≡ rule_value_of front rule.now) }
{
    let head = Head {
        front,
        number: rule.number(),
        word: rule.word(),
    };
    match rule {
        Rule::BadJson => plain(alloc, head),
        Rule::BadField { path } => with_path(alloc, head, path),
        Rule::TooLarge { what, count } => with_count(alloc, head, *what, *count),
        Rule::BadName { name } => with_name(alloc, head, name),
        Rule::TwiceNamed { name } => with_name(alloc, head, name),
        Rule::UnknownNet { net } => with_net(alloc, head, net),
        Rule::UnknownPin { comp, pin } => with_pin(alloc, head, comp, pin),
        Rule::WrongFrom { comp, pin, net } => with_present(alloc, head, comp, pin, net),
        Rule::StockPin { comp, pin } => with_pin(alloc, head, comp, pin),
        Rule::SupplyDriven { net } => with_net(alloc, head, net),
        Rule::NetNameTaken { net } => with_net(alloc, head, net),
        Rule::NotOneDriver { net, count } => with_drivers(alloc, head, net, *count),
        Rule::Loop { nets } => with_nets(alloc, head, nets.as_slice()),
    }
}

/// The compact text of a refusal at a front: the front, the rule's number and name, and the rule's fields.
pub fn rule_text(alloc: Global, front: u64, rule: &Rule) -> Result<Vec<u8>, Memory>
    ensures { IfOk result (λ t. t.items ≡ compact_text (rule_value_of front rule.now)) }
{
    let value = rule_value(alloc, front, rule)?;
    Ok(value.to_vec(alloc)?)
}
