//! The four texts of a base.

ghost use Rattle.eco_common.specs.declared.limits.TheConstants.{MAX_DEF_BYTES, MAX_LEF_BYTES};
ghost use Rattle.std.specs.Prelude.{◌≤◌, length};

/// The texts of a LEF, a DEF, a functions file and a desk file, none longer than it may be.
#[derive(Drop)]
pub struct BaseTexts {
    pub lef: Vec<u8>,
    pub def: Vec<u8>,
    pub functions: Vec<u8>,
    pub desk: Vec<u8>,
    ghost lef_short: { length lef.items ≤ MAX_LEF_BYTES },
    ghost def_short: { length def.items ≤ MAX_DEF_BYTES },
}
