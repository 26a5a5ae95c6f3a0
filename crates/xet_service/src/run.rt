//! Runs of steps.
ghost use Rattle.std.specs.Prelude.{◌≡◌, Some};
ghost use Rattle.xet_store.specs.StoreModel.{StoreModel};
ghost use Rattle.xet_store.specs.Told.{Leaves};
ghost use Rattle.xet_service.specs.World.{state};
ghost use Rattle.xet_service.specs.Runs.{StepAppends, Runs};
ghost use Rattle.xet_service.specs.Traces.{sight, SightAppends, Shows};
ghost use Rattle.xet_service.specs.Headline.{RunsKeeping};
ghost use Rattle.xet_service.specs.Determined.{IsDetermined};

use crate::reply::Reply;
use crate::service::ChunkService;
use crate::step::Step;
use std::alloc::Global;
use xet_store::Store;
use xet_types::OutOfMemory;

/// Does a step and appends its reply; a refusal is a reply too. Where there is no memory, nothing changes.
fn step<K: Store>(
    alloc: Global,
    service: &mut ChunkService<K>,
    step: &Step,
    replies: &mut Vec<Reply>,
) -> Result<(), OutOfMemory>
    ensures told { (m : StoreModel) → K.Client.told service.old.store ≡ Some m → Leaves (λ after. StepAppends (state m service.old.reads service.old.next) (K.Client.faults service.old.store) step.now replies.old.items result replies.new.items (state after service.new.reads service.new.next) (K.Client.faults service.new.store)) (K.Client.told service.new.store) }
    ensures seen { SightAppends (sight service.old.reads service.old.next (K.Client.faults service.old.store)) step.now replies.old.items result replies.new.items (sight service.new.reads service.new.next (K.Client.faults service.new.store)) }
{
    replies.reserve(1)?;
    match service.act(alloc, step.at, &step.act) {
        Ok(reply) => replies.push(reply)?,
        Err(error) => match error.refusal() {
            Some(why) => replies.push(Reply::Refused(why))?,
            None => return Err(OutOfMemory),
        },
    }
    Ok(())
}

/// Does the steps one after another.
fn do_steps<K: Store>(
    alloc: Global,
    service: &mut ChunkService<K>,
    steps: &[Step],
    replies: &mut Vec<Reply>,
) -> Result<(), OutOfMemory>
    ensures told { (m : StoreModel) → K.Client.told service.old.store ≡ Some m → Leaves (λ after. Runs (state m service.old.reads service.old.next) (K.Client.faults service.old.store) steps.now replies.old.items result replies.new.items (state after service.new.reads service.new.next) (K.Client.faults service.new.store)) (K.Client.told service.new.store) }
    ensures seen { Shows (sight service.old.reads service.old.next (K.Client.faults service.old.store)) steps.now replies.old.items result replies.new.items (sight service.new.reads service.new.next (K.Client.faults service.new.store)) }
{
    for next in steps {
        step(alloc, service, next, replies)?;
    }
    Ok(())
}

/// Does steps in order, and appends their replies. Where there is no memory, some first steps were done, and the replies
/// of these were appended.
///
/// Where the store tells its model, the replies are those of a run, which keeps what is promised of reads: a read finishes only
/// with its file's bytes as its plan's store gave them; a plan's links hold exactly the chunks that meet its range, each once; a
/// refused step changes nothing and has its stated cause; and a valid read's steps all succeed, the last fetch finishing it.
/// Whatever the store tells, a refusal is one of its act's and keeps the open reads, and the outside's comes only where the
/// store's count of faults rose.
pub fn run_steps<K: Store>(
    alloc: Global,
    service: &mut ChunkService<K>,
    steps: &[Step],
    replies: &mut Vec<Reply>,
) -> Result<(), OutOfMemory>
    ensures told { (m : StoreModel) → K.Client.told service.old.store ≡ Some m → Leaves (λ after. RunsKeeping (state m service.old.reads service.old.next) (K.Client.faults service.old.store) steps.now replies.old.items result replies.new.items (state after service.new.reads service.new.next) (K.Client.faults service.new.store)) (K.Client.told service.new.store) }
    ensures seen { Shows (sight service.old.reads service.old.next (K.Client.faults service.old.store)) steps.now replies.old.items result replies.new.items (sight service.new.reads service.new.next (K.Client.faults service.new.store)) }
{
    do_steps(alloc, service, steps, replies)
}

/// The replies of a run are one function of the store, the open reads and the steps, as far as the outside doesn't fail and
/// memory isn't wanting.
pub fn replies_are_determined()
    ensures { IsDetermined }
{}
