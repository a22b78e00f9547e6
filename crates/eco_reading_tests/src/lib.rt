//! Tests of what is read: words, numbers, functions files, embeddings, desk files, LEF and DEF.
//!
//! Each module tests one crate, `text` that of `eco_text` and so on. An answer is turned into plain text, and compared with
//! what was worked out by hand from the form of the file.
#![tactic(auto)]

#[cfg(test)]
mod def;
#[cfg(test)]
mod embed;
#[cfg(test)]
mod func;
#[cfg(test)]
mod lef;
#[cfg(test)]
mod line;
#[cfg(test)]
mod spares;
#[cfg(test)]
mod text;
