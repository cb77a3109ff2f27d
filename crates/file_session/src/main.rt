//! A stored session on a real file: formats a new image as `icefs format` does, and answers standard input as `icefs run` does.
#![tactic(auto)]

ghost use Rattle.std.specs.Prelude.{◌≡◌, [], false, true};

use disk_file::{FileHost, OpenFault};
use ice_base::{Status, Words};
use ice_run::{image_of, run};
use std::alloc::Global;
use std::process::ExitCode;

const FORMAT: [&str; 6] = ["format", "img", "--slots", "4", "--groups", "16"];

const RUN: [&str; 2] = ["run", "img"];

/// Does what the words ask for on the file that they name.
fn work(rt: &HostRuntime, texts: &[&str]) -> Status {
    let mut words = Words::new(rt.alloc());
    for text in texts {
        if words.push(text).is_err() {
            return Status::Memory;
        }
    }
    let Ok(image) = image_of(rt.alloc(), &words) else {
        return Status::Usage;
    };
    match FileHost::attach(rt, image.name, image.least) {
        Ok(mut host) => answered(rt.alloc(), &words, &mut host),
        Err(OpenFault::Memory) => Status::Memory,
        Err(OpenFault::Failed) => Status::Disk,
    }
}

/// Runs the words on the host, and sends all replies that were held back.
fn answered(alloc: Global, words: &Words, host: &mut FileHost) -> Status
    ensures sent { host.new.lost ≡ false → host.new.held ≡ [] }
    ensures lost { host.new.lost ≡ true → result ≡ Status.Sink }
{
    let status = run(alloc, words, host);
    host.ended(status)
}

/// The image formatted, and the session.
fn all(rt: &HostRuntime) -> Status {
    match work(rt, &FORMAT) {
        Status::Done => work(rt, &RUN),
        status => status,
    }
}

fn main(rt: HostRuntime) -> ExitCode {
    ExitCode::from(all(&rt) as u8)
}
