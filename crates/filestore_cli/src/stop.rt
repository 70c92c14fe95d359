//! How a run ends before all is done.
ghost use Rattle.std.specs.Prelude.{◌≡◌, ◌≤◌, [], IfOk, OnErr, string_bytes};
ghost use Rattle.filestore_cli.specs.Seen.{sink_seen, EndsWith};
ghost use Rattle.filestore_cli.specs.Stop.{slashed, damaged_line, mount_line, refused_line, refused_status, make_stop, mount_stop, step_stop, Ended};

use crate::status::Status;
use fs_script::{Blob, ScriptWhy, print_refusal};
use io_edge::{Sink, write_all};
use script_store::StepFault;
use std::alloc::{AllocError, Global};
use store_making::MakeFault;
use store_opening::MountFault;
use tree_api::TreePath;

/// What is refused.
#[derive(Debug, Drop)]
pub enum Refusal {
    /// The script, at its first refused line; 0 stands for the whole script.
    Script { line: u64, why: ScriptWhy },
    /// The store that is there.
    Store(MountFault),
    /// The device, on whose size in bytes no ring can be made.
    Size(u64),
    /// A tree in which something stands, where a store was to be made.
    NotEmpty,
    /// What stands at this path of a store that was mounted, where no store leaves that.
    Damaged(TreePath),
}

/// Why a run stops.
#[derive(Debug, Drop)]
pub enum Stop {
    /// The words are no command.
    Usage,
    /// The tree counted a fault.
    Tree,
    /// The device counted a fault.
    Device,
    /// The source counted a fault.
    Source,
    /// The sink counted a fault.
    Sink,
    /// Want of memory.
    Memory,
    Refused(Refusal),
}

impl From<AllocError> for Stop {
    ghost use Rattle.filestore_cli.specs.declared.stop.Stop.TheVariants.{Memory};

    ghost from_gives = { λ _ stop. stop ≡ Memory };

    fn from(_: AllocError) -> Self {
        Stop::Memory
    }
}

/// What a store that wasn't mounted is to a run.
pub fn mount_stop(fault: MountFault) -> Stop
    ensures { result ≡ mount_stop fault }
{
    match fault {
        MountFault::Tree => Stop::Tree,
        MountFault::Device => Stop::Device,
        MountFault::Memory => Stop::Memory,
        refused => Stop::Refused(Refusal::Store(refused)),
    }
}

/// What a store that wasn't made is to a run.
pub fn make_stop(fault: MakeFault) -> Stop
    ensures { result ≡ make_stop fault }
{
    match fault {
        MakeFault::NotEmpty => Stop::Refused(Refusal::NotEmpty),
        MakeFault::DeviceSize { size } => Stop::Refused(Refusal::Size(size)),
        MakeFault::Tree => Stop::Tree,
        MakeFault::Device => Stop::Device,
        MakeFault::Memory => Stop::Memory,
    }
}

/// What a statement that wasn't done is to a run.
pub fn step_stop(fault: StepFault) -> Stop
    ensures { result ≡ step_stop fault }
{
    match fault {
        StepFault::Tree => Stop::Tree,
        StepFault::Device => Stop::Device,
        StepFault::Damaged { path } => Stop::Refused(Refusal::Damaged(path)),
        StepFault::Memory => Stop::Memory,
    }
}

// Each step of a path behind a slash.
fn slashed(alloc: Global, path: &TreePath) -> Result<Blob, AllocError>
    ensures { IfOk result (λ text. text ≡ slashed path.now) }
{
    let mut text = Vec::new(alloc);
    for i in 0..path.steps() {
        text.push(b'/')?;
        text.extend_from_slice(path.step(i))?;
    }
    Ok(Blob::from_vec(text))
}

// The line that tells where something stands that no store leaves there.
fn print_damaged(alloc: Global, path: &TreePath) -> Result<Blob, AllocError>
    ensures { IfOk result (λ line. line ≡ damaged_line path.now) }
{
    let slashed = slashed(alloc, path)?;
    let bytes = slashed.slice();
    let steps = if bytes.is_empty() { bytes } else { &bytes[1..] };
    let mut line = String::from_str(alloc, "store: damaged ")?.into_bytes();
    line.extend_from_slice(steps)?;
    line.push(b'\n')?;
    Ok(Blob::from_vec(line))
}

// A line that is always the same.
fn plain(alloc: Global, line: &str) -> Result<Blob, AllocError>
    ensures { IfOk result (λ text. text ≡ line.now) }
{
    Ok(Blob::from_vec(String::from_str(alloc, line)?.into_bytes()))
}

// The bytes of a line.
fn blob(line: String) -> Blob
    ensures { result ≡ string_bytes line }
{
    Blob::from_vec(line.into_bytes())
}

// The line that tells of two identities.
fn print_fsids(alloc: Global, tree: &[u8], ring: &[u8]) -> Result<Blob, AllocError>
    ensures { IfOk result (λ text. text ≡ mount_line (MountFault.WrongFsid tree.now ring.now)) }
{
    let tree = hex::encode(alloc, tree)?;
    let ring = hex::encode(alloc, ring)?;
    let line = format!(in alloc; "store: fsid {tree} {ring}\n")?;
    Ok(blob(line))
}

// The line that tells where the journal begins, and the committed number.
fn print_gap(alloc: Global, start: u64, committed: u64) -> Result<Blob, AllocError>
    ensures { IfOk result (λ text. text ≡ mount_line (MountFault.JournalGap start committed)) }
{
    let line = format!(in alloc; "store: journal gap {start} {committed}\n")?;
    Ok(blob(line))
}

// The line that tells why a store wasn't mounted.
fn print_mount_fault(alloc: Global, fault: &MountFault) -> Result<Blob, AllocError>
    ensures { IfOk result (λ text. text ≡ mount_line fault.now) }
{
    match fault {
        MountFault::NotAStore => plain(alloc, "store: not a store\n"),
        MountFault::WrongVersion { found } => {
            let line = format!(in alloc; "store: version {found}\n")?;
            Ok(Blob::from_vec(line.into_bytes()))
        }
        MountFault::BadSettings => plain(alloc, "store: bad settings\n"),
        MountFault::NoHeader => plain(alloc, "store: no ring header\n"),
        MountFault::WrongFsid { tree, ring } => print_fsids(
            alloc,
            tree.as_slice(),
            ring.as_slice(),
        ),
        MountFault::Spent => plain(alloc, "store: ring spent\n"),
        MountFault::BadSeq => plain(alloc, "store: bad number\n"),
        MountFault::JournalGap { start, committed } => print_gap(alloc, *start, *committed),
        MountFault::Damaged { path } => print_damaged(alloc, path),
        MountFault::BadEntry { seq } => {
            let line = format!(in alloc; "store: bad entry {seq}\n")?;
            Ok(Blob::from_vec(line.into_bytes()))
        }
        MountFault::Tree => plain(alloc, "fault: tree\n"),
        MountFault::Device => plain(alloc, "fault: device\n"),
        MountFault::Memory => plain(alloc, "fault: memory\n"),
    }
}

impl Refusal {
    fn print(&self, alloc: Global) -> Result<Blob, AllocError>
        ensures { IfOk result (λ text. text ≡ refused_line self.now) }
    {
        match self {
            Refusal::Script { line, why } => print_refusal(alloc, *line, *why),
            Refusal::Store(fault) => print_mount_fault(alloc, fault),
            Refusal::Size(size) => {
                let text = format!(in alloc; "store: device size {size}\n")?;
                Ok(Blob::from_vec(text.into_bytes()))
            }
            Refusal::NotEmpty => {
                let text = String::from_str(alloc, "store: not empty\n")?;
                Ok(Blob::from_vec(text.into_bytes()))
            }
            Refusal::Damaged(path) => print_damaged(alloc, path),
        }
    }

    fn status(&self) -> Status
        ensures { result.0 ≡ refused_status self.now }
    {
        match self {
            Refusal::Script { .. } => Status::REFUSED,
            Refusal::Store(_) => Status::STORE,
            Refusal::Size(_) => Status::STORE,
            Refusal::NotEmpty => Status::STORE,
            Refusal::Damaged(_) => Status::STORE,
        }
    }
}

// Writes the last line, whatever becomes of it, and ends with this status.
fn close<K: Sink>(sink: &mut K, line: &[u8], status: Status) -> Status
    ensures same { result ≡ status }
    ensures ends { EndsWith (sink_seen K.Sink sink.old sink.new) [] line.now }
    ensures honest { K.tells sink.new → K.tells sink.old }
    ensures later { (K.out sink.old).faults ≤ (K.out sink.new).faults }
{
    let _ = write_all(sink, line);
    status
}

/// Writes the last line of a run that stops, whatever becomes of it.
pub fn end<K: Sink>(alloc: Global, sink: &mut K, stop: Stop) -> Status
    ensures ends { Ended stop (sink_seen K.Sink sink.old sink.new) result.0 }
    ensures honest { K.tells sink.new → K.tells sink.old }
    ensures later { (K.out sink.old).faults ≤ (K.out sink.new).faults }
{
    match stop {
        Stop::Usage => close(
            sink,
            b"usage: mkfs [--fsid=F] [--merge=N] [--split=N] [--lfn=N] [--mode=wal or parallel], run [new], list C, check, workload SEED N\n",
            Status::USAGE,
        ),
        Stop::Tree => close(sink, b"fault: tree\n", Status::TREE),
        Stop::Device => close(sink, b"fault: device\n", Status::DEVICE),
        Stop::Source => close(sink, b"fault: read\n", Status::SOURCE),
        Stop::Sink => Status::SINK,
        Stop::Memory => close(sink, b"fault: memory\n", Status::MEMORY),
        Stop::Refused(refusal) => end_refused(alloc, sink, refusal),
    }
}

// The same of a refusal.
fn end_refused<K: Sink>(alloc: Global, sink: &mut K, refusal: Refusal) -> Status
    ensures ends { Ended (Stop.Refused refusal) (sink_seen K.Sink sink.old sink.new) result.0 }
    ensures honest { K.tells sink.new → K.tells sink.old }
    ensures later { (K.out sink.old).faults ≤ (K.out sink.new).faults }
{
    let Ok(line) = refusal.print(alloc) else {
        return close(sink, b"fault: memory\n", Status::MEMORY);
    };
    close(sink, line.slice(), refusal.status())
}
