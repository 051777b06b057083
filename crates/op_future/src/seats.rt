//! Tasks with their workers, side by side.
ghost use Rattle.std.specs.Prelude.{◌≡◌, ◌+◌, ◌∷◌, ◌++◌, [], ◌^◌, ◌<◌, ℕ, All, IfOk, length, map, slice_index_or};
ghost use Rattle.lane_turns.specs.AllWorkers.{AreReady, log_of};
ghost use Rattle.op_future.specs.Seats.{EachWithTask, HasRunTask, IsRoomFor};

use crate::running::run_task;
use crate::task::Task;
use asio_types::NoMemory;
use lane_context::{Context, Runner, Worker, Workers, WorkersApart, run_each};
use lane_logs::LaneSession;
use op_handlers::CompletionHandler;
use reactor_trait::Reactor;
use std::alloc::Global;
use std::sync::Wait;
use std::thread::Threads;

/// A task with the worker that looks for what it wants.
pub(crate) struct TaskSeat<'a, X: Reactor, H: CompletionHandler, N: LaneSession, T> {
    pub(crate) worker: Worker<'a, X, H, N>,
    pub(crate) task: T,
}

/// The room for a session of so many tasks: all of it is made before the first handler is taken.
pub(crate) struct SeatRoom<'a, X: Reactor, H: CompletionHandler, N: LaneSession, T> {
    pub(crate) seats: Vec<TaskSeat<'a, X, H, N, T>>,
    pub(crate) workers: Vec<Worker<'a, X, H, N>>,
    pub(crate) tasks: Vec<T>,
}

impl<'a, X: Reactor, H: CompletionHandler, N: LaneSession, T: Task> Runner<Context<'a, X, H, N>>
    for TaskSeat<'a, X, H, N, T> {
    ghost use Rattle.lane_turns.specs.Attempts.{IsSeated};
    ghost use Rattle.op_future.specs.Seats.{HasRunTask};
    ghost use Rattle.op_future.specs.Steps.{party};

    ghost may = { λ context seat. IsSeated context seat.worker };

    ghost ran = { λ context old new. HasRunTask N.names.script context
        (party old.worker (T.state old.task)) (party new.worker (T.state new.task)) };

    fn run_on<Rt: Wait>(&mut self, rt: &Rt, context: &Context<'a, X, H, N>) {
        run_task(rt, context, &mut self.worker, &mut self.task);
        context.run(rt, &mut self.worker);
    }
}

impl<'a, X: Reactor, H: CompletionHandler, N: LaneSession, T: Task> SeatRoom<'a, X, H, N, T> {
    /// Room for so many tasks, with their workers and one more.
    pub(crate) fn make(alloc: Global, count: usize) -> Result<SeatRoom<'a, X, H, N, T>, NoMemory>
        requires { count < 2 ^ 32 }
        ensures seats { IfOk result (λ room. IsRoomFor count room.seats) }
        ensures workers { IfOk result (λ room. IsRoomFor (count + 1) room.workers) }
        ensures tasks { IfOk result (λ room. IsRoomFor count room.tasks) }
    {
        let tasks = Vec::with_capacity(alloc, count)?;
        let seats = Vec::with_capacity(alloc, count)?;
        match Vec::with_capacity(alloc, count + 1) {
            Ok(workers) => Ok(SeatRoom {
                seats,
                workers,
                tasks,
            }),
            Err(_) => {
                seats.destroy_empty();
                Err(NoMemory)
            }
        }
    }

    /// Gives the room back.
    pub(crate) fn free(self)
        requires no_seats { self.seats.items ≡ [] }
        requires no_workers { self.workers.items ≡ [] }
    {
        let SeatRoom {
            seats,
            workers,
            tasks: _,
        } = self;
        seats.destroy_empty();
        workers.destroy_empty();
    }
}

/// Each task with a worker, in their order, and the caller's own worker, which has none.
fn seat_each<'a, X: Reactor, H: CompletionHandler, N: LaneSession, T: Task>(
    workers: Vec<Worker<'a, X, H, N>>,
    tasks: Vec<T>,
    room: Vec<TaskSeat<'a, X, H, N, T>>,
) -> (Vec<TaskSeat<'a, X, H, N, T>>, Worker<'a, X, H, N>)
    requires count { length workers.items ≡ length tasks.items + 1 }
    requires room { IsRoomFor (length tasks.items) room }
    ensures workers { map (λ seat. seat.worker) result.0.items ++ result.1 ∷ []
        ≡ workers.entry.items }
    ensures tasks { map (λ seat. seat.task) result.0.items ≡ tasks.items }
{
    let mut seats = room;
    let mut workers = workers.into_iter();
    let mut tasks = tasks.into_iter();
    while let Some(task) = tasks.next() {
        let Some(worker) = workers.next() else {
            unreachable!()
        };
        seats.push_reserved(TaskSeat { worker, task });
    }
    let Some(own) = workers.next() else {
        unreachable!()
    };
    tasks.destroy_empty();
    workers.destroy_empty();
    (seats, own)
}

/// The tasks and the workers again, each in their order, the caller's own behind.
fn part_each<'a, X: Reactor, H: CompletionHandler, N: LaneSession, T: Task>(
    seats: Vec<TaskSeat<'a, X, H, N, T>>,
    own: Worker<'a, X, H, N>,
    workers: Vec<Worker<'a, X, H, N>>,
    tasks: Vec<T>,
) -> (Vec<Worker<'a, X, H, N>>, Vec<T>)
    requires workers { IsRoomFor (length seats.items + 1) workers }
    requires tasks { IsRoomFor (length seats.items) tasks }
    ensures workers { result.0.items ≡ map (λ seat. seat.worker) seats.entry.items ++ own.entry ∷ [] }
    ensures tasks { result.1.items ≡ map (λ seat. seat.task) seats.entry.items }
{
    let mut workers = workers;
    let mut tasks = tasks;
    let mut seats = seats.into_iter();
    while let Some(seat) = seats.next() {
        let TaskSeat { worker, task } = seat;
        workers.push_reserved(worker);
        tasks.push_reserved(task);
    }
    seats.destroy_empty();
    workers.push_reserved(own);
    (workers, tasks)
}

/// Each of these runs, at the same time where threads can be had.
fn run_all<Rt: Threads + Wait + Sync, C: Sync, W: Runner<C> + Send>(
    rt: &Rt,
    context: &C,
    seats: Vec<W>,
) -> Vec<W>
    requires may { All (λ one. W.may context.now one) seats.items }
    ensures size { length result.items ≡ length seats.items }
    ensures ran { (k : ℕ) (d : W) → k < length seats.items →
        W.ran context.now (slice_index_or seats.items k d) (slice_index_or result.items k d) }
{
    let mut seats = seats;
    run_each(rt, context, seats.as_mut_slice());
    seats
}

/// The workers of a round make steps of their tasks, each until its task ends, and then call `run`, at
/// the same time where threads can be had.
pub(crate) fn run_tasks<
    'a,
    Rt: Threads + Wait + Sync,
    X: Reactor + Send,
    H: CompletionHandler + Send,
    N: LaneSession + Send + Sync,
    T: Task + Send,
>(
    rt: &Rt,
    context: &Context<'a, X, H, N>,
    workers: Workers<'a, X, H, N>,
    tasks: Vec<T>,
    room: SeatRoom<'a, X, H, N, T>,
) -> (Workers<'a, X, H, N>, Vec<T>)
    requires ready { AreReady N.names.script context.now workers.all }
    requires count { length workers.all ≡ length tasks.items + 1 }
    requires seats { IsRoomFor (length tasks.items) room.seats }
    requires more_workers { IsRoomFor (length tasks.items + 1) room.workers }
    requires more_tasks { IsRoomFor (length tasks.items) room.tasks }
    ensures ran { EachWithTask (HasRunTask N.names.script context.now) workers.entry.all result.0.all
        (map T.state tasks.items) (map T.state result.1.items) }
    ensures ready { AreReady N.names.script context.now result.0.all }
    ensures logs { map log_of result.0.all ≡ map log_of workers.entry.all }
    ensures opener { result.0.opener ≡ workers.entry.opener }
{
    let SeatRoom {
        seats,
        workers: workers_room,
        tasks: tasks_room,
    } = room;
    let WorkersApart { all, opener } = workers.apart();
    let (seats, own) = seat_each(all, tasks, seats);
    let seats = run_all(rt, context, seats);
    let (all, tasks) = part_each(seats, own, workers_room, tasks_room);
    (Workers::together(WorkersApart { all, opener }), tasks)
}
