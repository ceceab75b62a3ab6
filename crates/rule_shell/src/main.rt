//! The program: rules, a mark and commands from standard input, and what the commands print.
//!
//! What a session is stands in `rl_session`, and what its callers are in `rl_callers`; here are the status, the stores and the
//! sinks of the process. `options` reads its options. `session` runs the commands by callers of a ruler, and closes it. `output`
//! is standard output for a sink in a box. `folder` keeps a folder for one run. `counting`, `tally` and `counted` count what
//! callers and stores do, and print it.
#![tactic(auto)]

ghost use Rattle.std.specs.Prelude.{◌≡◌, ◌≤◌, length, map, IfOk};
ghost use Rattle.std.specs.Process.{exit_status};
ghost use Rattle.rule_shell.specs.Options.{AreWithin};
ghost use Rattle.rule_shell.specs.Statuses.{status_number, stop_at};
ghost use Rattle.rule_shell.specs.Stores.{shard_folder, shard_folders};
ghost use Rattle.rule_shell.specs.declared.Stop.TheVariants.{Failed};

mod counted;
mod counting;
mod folder;
mod options;
mod output;
mod session;
mod tally;

use counted::Counted;
use folder::{FolderFault, claim_folder, release_folder};
use options::{Options, Plan, SinkOptions, read_options};
use output::Output;
use rl_chunks::{DirStore, MemStore, Store};
use rl_plain::PlainText;
use rl_session::names::front_fault_name;
use rl_session::{Front, FrontError, FrontFault, Printer, RunError, Status, read_front};
use rl_sinks::{Notifier, Recorder, Sink, Tail};
use session::{Given, run_session};
use std::alloc::{AllocError, AllocFailed, Global};
use std::fs;
use std::io::BufWriter;
use std::marker::Brand;
use std::process::ExitCode;
use std::sync::Wait;
use std::sync::ledger::Blank;
use std::thread::Threads;

// The room for what waits to be written, in bytes: the answer to most commands is written at once. The C library goes through
// all free memory where a block of 65,536 bytes or more is given back, so it stays below.
const OUTPUT_ROOM: usize = 61_440;

// What a session prints on.
type Out = BufWriter<Output<HostRuntime>>;

// What ends the program before the commands.
#[derive(Clone, Copy, Drop)]
enum Stop {
    BadOptions,
    BadFolder(FolderFault),
    BadInput(FrontFault),
    // Reading, writing or memory failed.
    Failed,
}

impl From<AllocError> for Stop {
    ghost from_gives = { λ _ e. e ≡ Failed };

    fn from(_error: AllocError) -> Self {
        Stop::Failed
    }
}

impl<T: Drop> From<AllocFailed<T>> for Stop {
    ghost from_gives = { λ _ e. e ≡ Failed };

    fn from(_error: AllocFailed<T>) -> Self {
        Stop::Failed
    }
}

fn main(rt: HostRuntime) -> ExitCode {
    let ended = run(&rt, &rt);
    if let Err(stop) = ended {
        report_stop(&rt, stop);
    }
    exit_code(ended)
}

// Reports what was wrong with the options or the input, if the program stopped for that.
fn report_stop(rt: &HostRuntime, stop: Stop) {
    let _ = match stop {
        Stop::BadOptions => eprintln!(rt; "rule_shell: bad options"),
        Stop::BadFolder(FolderFault::NotEmpty) => eprintln!(rt; "rule_shell: bad folder NotEmpty"),
        Stop::BadFolder(FolderFault::InUse) => {
            eprintln!(rt;
                "rule_shell: bad folder InUse: another run has it, or one was cut off; then remove the folder"
            )
        }
        Stop::BadInput(fault) => {
            eprintln!(rt; "rule_shell: bad input {}", front_fault_name(fault))
        }
        Stop::Failed => Ok(()),
    };
}

// The status of the process.
fn exit_code(ended: Result<Status, Stop>) -> ExitCode
    ensures { exit_status result ≡ status_number ended }
{
    ExitCode::from(match ended {
        Ok(Status::Taken) => 0,
        Ok(Status::Refused) => 1,
        Err(Stop::BadOptions) | Err(Stop::BadFolder(_)) | Err(Stop::BadInput(_)) => 2,
        Ok(Status::Unwritten) | Err(Stop::Failed) => 3,
    })
}

// Reads the options and the input, and runs the commands. A folder that has to be new is kept for the run meanwhile.
fn run<R: Threads + Wait + Sync>(rt: &HostRuntime, threads: &R) -> Result<Status, Stop> {
    let options = read_options(rt)?;
    match claim(rt, &options)? {
        Some(lock) => {
            let ended = run_input(rt, threads, options);
            release_folder(rt, &lock);
            ended
        }
        None => run_input(rt, threads, options),
    }
}

// Takes the folder of the run, if there is one that has to be new.
fn claim(rt: &HostRuntime, options: &Options) -> Result<Option<PlainText>, Stop> {
    match &options.store {
        Some(folder) if options.is_new => Ok(Some(claim_folder(rt, folder.as_str())?)),
        _ => Ok(None),
    }
}

// Reads the input, and runs the commands.
fn run_input<R: Threads + Wait + Sync>(
    rt: &HostRuntime,
    threads: &R,
    options: Options,
) -> Result<Status, Stop>
    requires { AreWithin options.shards options.plan.callers }
{
    let mut reader = rt.reader();
    match read_front(rt.alloc(), &mut reader) {
        Ok(front) => run_front(rt, threads, options, front),
        Err(error) => Err(stop_at(error)),
    }
}

// Why the program stops at an input that gave no commands.
fn stop_at(error: FrontError) -> Stop
    ensures { result ≡ stop_at error }
{
    match error {
        FrontError::Fault(FrontFault::ReadFault) | FrontError::Memory => Stop::Failed,
        FrontError::Fault(fault) => Stop::BadInput(fault),
    }
}

// Runs the commands over stores in memory, or in folders.
fn run_front<R: Threads + Wait + Sync>(
    rt: &HostRuntime,
    threads: &R,
    options: Options,
    front: Front,
) -> Result<Status, Stop>
    requires { AreWithin options.shards options.plan.callers }
{
    let Options {
        shards,
        store,
        is_new: _,
        plan,
    } = options;
    match store {
        Some(folder) => {
            let stores = folder_stores(rt, folder.as_str(), shards)?;
            run_over(rt, threads, plan, stores, front)
        }
        None => run_over(rt, threads, plan, memory_stores(rt.alloc(), shards)?, front),
    }
}

// A store in memory for each shard.
fn memory_stores(alloc: Global, shards: usize) -> Result<Vec<Counted<MemStore>>, Stop>
    ensures { IfOk result (λ stores. length stores.items ≡ shards) }
{
    let mut stores = Vec::with_capacity(alloc, shards)?;
    for _ in 0..shards {
        stores.push(Counted::new(MemStore::new(alloc)))?;
    }
    Ok(stores)
}

// A store for each shard, over the folder of its number.
fn folder_stores(
    rt: &HostRuntime,
    folder: &str,
    shards: usize,
) -> Result<Vec<Counted<DirStore<HostRuntime>>>, Stop>
    ensures stores { IfOk result (λ stores. length stores.items ≡ shards) }
    ensures folders { IfOk result (λ stores. map (λ store. store.inner.folder) stores.items ≡ shard_folders folder.now shards) }
{
    let mut stores = Vec::with_capacity(rt.alloc(), shards)?;
    for number in 0..shards {
        let store = folder_store(rt, folder, number)?;
        stores.push(Counted::new(store))?;
    }
    Ok(stores)
}

// The store of a shard, whose folder is made where it is not there.
fn folder_store(
    rt: &HostRuntime,
    folder: &str,
    number: usize,
) -> Result<DirStore<HostRuntime>, Stop>
    ensures { IfOk result (λ store. store.folder ≡ shard_folder folder.now number) }
{
    let own = format!(in rt.alloc(); "{folder}/{number}")?;
    match fs::create_dir_all(rt, own.as_str()) {
        Ok(()) => Ok(DirStore::new(*rt, PlainText::from_string(own))),
        Err(_error) => Err(Stop::Failed),
    }
}

// Runs the commands over the stores, with sinks of its own for each group.
fn run_over<D: Store + Send, R: Threads + Wait + Sync>(
    rt: &HostRuntime,
    threads: &R,
    plan: Plan,
    stores: Vec<Counted<D>>,
    front: Front,
) -> Result<Status, Stop>
    requires { AreWithin (length stores.items) plan.callers }
{
    let alloc = rt.alloc();
    let SinkOptions { all, cap, tail } = plan.sinks;
    let Front { groups, commands } = front;
    let mut sinks = Vec::with_capacity(alloc, groups.len())?;
    for _ in 0..groups.len() {
        let recorder = Recorder::new(alloc, Output::new(*rt), cap);
        let recorder: Box<dyn Sink + Send> = Box::new(alloc, recorder)?;
        if !all {
            sinks.push(vec![in alloc; recorder]?)?;
            continue;
        }
        let notifier = Notifier::new(alloc, Output::new(*rt), cap);
        let notifier: Box<dyn Sink + Send> = Box::new(alloc, notifier)?;
        let tail = Tail::new(alloc, Output::new(*rt), tail)?;
        let tail: Box<dyn Sink + Send> = Box::new(alloc, tail)?;
        sinks.push(vec![in alloc; recorder, notifier, tail]?)?;
    }
    let out = BufWriter::with_capacity(alloc, OUTPUT_ROOM, Output::new(*rt));
    let mut out = Printer::new(out.map_err(|_| Stop::Failed)?);
    let blanks = (
        Blank::new(stores.len() as u64),
        Blank::new(plan.callers as u64),
    );
    let given = Given {
        stores,
        groups,
        sinks,
        commands,
    };
    match run_session::<D, Box<dyn Sink + Send>, Brand, Brand, R, Out>(
        rt, threads, plan, given, blanks, &mut out,
    ) {
        Ok(status) => Ok(status),
        Err(RunError::WriteFault) | Err(RunError::Memory) => Err(Stop::Failed),
    }
}
