//! The program: its words, the file that they name, and the status of the run.
#![tactic(auto)]

ghost use Rattle.std.specs.Prelude.{◌≡◌, [], false, true};

use disk_file::{FileHost, OpenFault};
use ice_base::{ImageFault, Status, Words};
use ice_run::{image_of, run};
use std::alloc::Global;
use std::fs::OpenOptions;
use std::process::ExitCode;
use std::{env, io};
use thiserror::Error;

/// The line on standard error: the status that is not Done.
#[derive(Debug, Drop, Error)]
enum Fault {
    #[error("icefs: Usage")]
    Usage,
    #[error("icefs: Memory")]
    Memory,
    #[error("icefs: Source")]
    Source,
    #[error("icefs: Sink")]
    Sink,
    #[error("icefs: Disk")]
    Disk,
    #[error("icefs: Volume")]
    Volume,
    #[error("icefs: Script")]
    Script,
    #[error("icefs: Small")]
    Small,
}

fn fault_of(status: Status) -> Option<Fault> {
    match status {
        Status::Done => None,
        Status::Usage => Some(Fault::Usage),
        Status::Memory => Some(Fault::Memory),
        Status::Source => Some(Fault::Source),
        Status::Sink => Some(Fault::Sink),
        Status::Disk => Some(Fault::Disk),
        Status::Volume => Some(Fault::Volume),
        Status::Script => Some(Fault::Script),
        Status::Small => Some(Fault::Small),
    }
}

/// What a person can do about a status, in a line or two. Done needs none.
fn hint_of(status: Status) -> &'static str {
    match status {
        Status::Done => "",
        Status::Usage => {
            "  icefs format IMAGE --slots S --groups N   makes an image: S of 1 to 16, N of 1 to 1024\n  icefs run IMAGE < SCRIPT                   answers a script of lines"
        }
        Status::Memory => "  there is not enough memory; nothing was done",
        Status::Source =>
            "  the script could not be read to its end; cubes that were mounted are as after a crash",
        Status::Sink =>
            "  the replies could not be written; cubes that were mounted are as after a crash",
        Status::Disk =>
            "  a read, a write or a sync of the image failed; what was acknowledged is kept, and a new run goes on from it",
        Status::Volume =>
            "  the image holds no volume, or its tables are damaged; 'icefs format' makes a new one, and drops what is there",
        Status::Script =>
            "  a script has at most 67,108,864 bytes; cubes that were mounted are as after a crash",
        Status::Small => "  the file has fewer blocks of 1,024 bytes than the image needs",
    }
}

/// How the program ends, and why the image could not be opened, where that is the reason.
#[derive(Drop)]
struct Ending {
    status: Status,
    reason: Option<io::Error>,
}

/// An end that its status says all of.
fn ended(status: Status) -> Ending {
    Ending {
        status,
        reason: None,
    }
}

/// The end where a file could not be opened. The system gives its reason where it refuses to open the file once more.
fn unopened(rt: &HostRuntime, name: &str, fault: OpenFault) -> Ending {
    Ending {
        status: status_of(fault),
        reason: OpenOptions::new()
            .read(true)
            .write(true)
            .open(rt, name)
            .err(),
    }
}

/// The words after the program's name. Words that are no text are no form.
fn gather(rt: &HostRuntime, words: &mut Words) -> Result<(), Status> {
    let all = match env::args(rt) {
        Ok(all) => all,
        Err(error) if error.kind() == io::ErrorKind::OutOfMemory => return Err(Status::Memory),
        Err(_) => return Err(Status::Usage),
    };
    for word in all.skip(1) {
        if words.push(word.as_str()).is_err() {
            return Err(Status::Memory);
        }
    }
    Ok(())
}

/// The host that the words name. Wrong words neither open nor make a file.
fn host_of(rt: &HostRuntime, words: &Words) -> Result<FileHost, Ending> {
    match image_of(rt.alloc(), words) {
        Ok(image) => match FileHost::attach(rt, image.name, image.least) {
            Ok(host) => Ok(host),
            Err(fault) => Err(unopened(rt, image.name, fault)),
        },
        Err(ImageFault::Memory) => Err(ended(Status::Memory)),
        Err(ImageFault::Usage) => Ok(FileHost::missing(rt)),
    }
}

fn work(rt: &HostRuntime) -> Ending {
    let mut words = Words::new(rt.alloc());
    if let Err(status) = gather(rt, &mut words) {
        return ended(status);
    }
    match host_of(rt, &words) {
        Ok(mut host) => ended(answered(rt.alloc(), &words, &mut host)),
        Err(ending) => ending,
    }
}

/// Runs the words on the host, and sends all replies that were held back.
fn answered(alloc: Global, words: &Words, host: &mut FileHost) -> Status
    ensures sent { host.new.lost ≡ false → host.new.held ≡ [] }
    ensures lost { host.new.lost ≡ true → result ≡ Status.Sink }
{
    let status = run(alloc, words, host);
    host.ended(status)
}

/// Why the host of an image is none.
fn status_of(fault: OpenFault) -> Status
    ensures memory { fault ≡ OpenFault.Memory → result ≡ Status.Memory }
    ensures failed { fault ≡ OpenFault.Failed → result ≡ Status.Disk }
{
    match fault {
        OpenFault::Memory => Status::Memory,
        OpenFault::Failed => Status::Disk,
    }
}

/// Says on standard error how the program ended, the system's reason where there is one, and what a person can do about it.
fn explain(rt: &HostRuntime, ending: &Ending, fault: &Fault) {
    let _ = eprintln!(rt; "{fault}");
    if let Some(reason) = &ending.reason {
        let _ = eprintln!(rt; "  the image can't be opened: {reason}");
        return;
    }
    let hint = hint_of(ending.status);
    let _ = eprintln!(rt; "{hint}");
}

fn main(rt: HostRuntime) -> ExitCode {
    let ending = work(&rt);
    if let Some(fault) = fault_of(ending.status) {
        explain(&rt, &ending, &fault);
    }
    ExitCode::from(ending.status as u8)
}

#[cfg(test)]
mod tests {
    use super::*;
    use std::test::Fail;

    #[test]
    fn each_status_has_its_number_and_its_line(rt: HostRuntime) -> Result<(), Fail> {
        assert_eq!(rt; Status::Done as u8, 0);
        assert!(rt; fault_of(Status::Done).is_none());
        for (status, number, line) in [
            (Status::Usage, 1, "icefs: Usage"),
            (Status::Memory, 2, "icefs: Memory"),
            (Status::Source, 3, "icefs: Source"),
            (Status::Sink, 4, "icefs: Sink"),
            (Status::Disk, 5, "icefs: Disk"),
            (Status::Volume, 6, "icefs: Volume"),
            (Status::Script, 7, "icefs: Script"),
            (Status::Small, 8, "icefs: Small"),
        ] {
            assert_eq!(rt; status as u8, number);
            let Some(fault) = fault_of(status) else {
                return Err(Fail::new("no line"));
            };
            let text = format!(in rt.alloc(); "{fault}")?;
            assert_eq!(rt; text.as_str(), line);
            assert!(rt; hint_of(status).starts_with("  "));
        }
        Ok(())
    }
}
