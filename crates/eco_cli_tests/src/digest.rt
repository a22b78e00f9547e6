//! The digest of a base. Another program gives the wanted ones: SHA-256, over each of the four texts after its length.

use crate::answer::replaced;
use eco_base::open_base;
use eco_small_base::{DEF, DESK, FUNCTIONS, LEF};
use std::alloc::Global;
use std::process::Abort;
use std::test::Fail;

/// The bytes of an edited text.
fn bytes(alloc: Global, text: &str, edit: (&str, &str)) -> Result<Vec<u8>, Fail> {
    Ok(replaced(alloc, text, &[edit])?.into_bytes())
}

/// The digest of the small base, edited so. None of these texts is so long that it may not be opened.
fn digest(alloc: Global, edit: (&str, &str)) -> Result<[u8; 32], Fail> {
    let lef = bytes(alloc, LEF, edit)?;
    let def = bytes(alloc, DEF, edit)?;
    let functions = bytes(alloc, FUNCTIONS, edit)?;
    let desk = bytes(alloc, DESK, edit)?;
    if 10_000 < lef.len() || 10_000 < def.len() {
        return Err("a long text".into());
    }
    match open_base(alloc, lef, def, functions, desk) {
        Ok(base) => Ok(base.digest()),
        Err(_) => Err("no base".into()),
    }
}

/// In lower-case hexadecimal.
fn hexadecimal(alloc: Global, digest: [u8; 32]) -> Result<String, Fail> {
    let mut line = String::new(alloc);
    for byte in digest {
        write!(line, "{byte:02x}")?;
    }
    Ok(line)
}

/// What stands in the texts of the small base, what stands in its place, and the digest.
const DIGESTS: [(&str, &str, &str); 2] = [
    (
        "",
        "",
        "8bdb624ff5ccfce5793831c85bae8e898d5508e17c7f49ac99a38ef8294f1d35",
    ),
    (
        "VERSION 5.8 ;",
        "VERSION 5.8 ;\n# as it was taped out",
        "1dfa06bbe4821b16642f730015c65abbb92cefe5e5c568b83d219b36d56484df",
    ),
];

#[test]
fn digests_of_another_program(rt: HostRuntime) -> Result<(), Fail> {
    let alloc = rt.alloc();
    for (old, new, wanted) in DIGESTS {
        let found = hexadecimal(alloc, digest(alloc, (old, new))?)?;
        assert_eq!(rt; found.as_str(), wanted, "{new}");
    }
    Ok(())
}
