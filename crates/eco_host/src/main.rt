//! The program `eco`: the commands of `eco_cli` over files and the standard streams.
#![tactic(auto)]

mod files;
mod read_source;
mod words;
mod write_sink;

use crate::files::FileHost;
use crate::read_source::ReadSource;
use crate::words::read_words;
use crate::write_sink::WriteSink;
use eco_cli::run;
use eco_text::Sink;
use std::process::ExitCode;

fn status(rt: &HostRuntime) -> u8 {
    let mut out = WriteSink::new(rt.stdout());
    let Ok(words) = read_words(rt) else {
        let _ = out.write_all(b"eco: memory\n");
        return 6;
    };
    let mut host = FileHost::new(rt);
    let mut input = ReadSource::new(rt.stdin());
    run(rt.alloc(), &words, &mut host, &mut input, &mut out)
}

fn main(rt: HostRuntime) -> ExitCode {
    ExitCode::from(status(&rt))
}
