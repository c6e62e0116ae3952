//! Seats in cells behind locks: the worker of a seat takes it out, and a seat without a worker stays in.
ghost use Rattle.std.specs.Prelude.{◌≤◌, ◌≡◌, [], IfSome, IfOk, vec_len, vec_capacity};
ghost use Rattle.rk_shared.specs.SeatViews.{IsSeatOf, AreSeatsOf};

use rk_io::Gate;
use rk_model::NoMemory;
use rk_shared::{Cpu, Kernel, RunName};
use std::alloc::Global;
use std::marker::{Model, PhantomData};
use std::sync::{Mutex, Wait};

/// A processor's seat of the named run, or none.
#[derive(Drop)]
pub(crate) struct SeatCell<N: RunName> {
    seat: Option<Cpu>,
    of: PhantomData<N>,
}

impl<N: RunName> Model for SeatCell<N> {
    ghost use Rattle.std.specs.Prelude.{Option, IfSome};
    ghost use Rattle.rk_shared.specs.SeatViews.{SeatView, IsSeatOf};

    ghost Value = { Option SeatView };

    ghost view = { λ c. c.seat };

    ghost invariant = { λ c. IfSome c.seat (IsSeatOf N.scenario N.opening) };
}

impl<N: RunName> SeatCell<N> {
    fn new(seat: Cpu) -> SeatCell<N>
        requires { IsSeatOf N.scenario N.opening seat }
    {
        SeatCell {
            seat: Some(seat),
            of: PhantomData,
        }
    }

    /// Takes the seat out, if it is in.
    pub(crate) fn take(&mut self) -> Option<Cpu>
        ensures { IfSome result (IsSeatOf N.scenario N.opening) }
    {
        self.seat.take()
    }

    /// Puts a seat in.
    pub(crate) fn put(&mut self, seat: Cpu)
        requires { IsSeatOf N.scenario N.opening seat }
    {
        self.seat = Some(seat);
    }

    /// Does one step of the seat, if it is in.
    pub(crate) fn step<G: Gate, R: Wait>(&mut self, rt: &R, kernel: &Kernel<N, G>) {
        if let Some(cpu) = &mut self.seat {
            kernel.step(rt, cpu);
        }
    }
}

/// Moves the seats into cells. The emptied vector keeps its room.
pub(crate) fn cells_of<N: RunName>(
    alloc: Global,
    cpus: &mut Vec<Cpu>,
) -> Result<Vec<Mutex<SeatCell<N>>>, NoMemory>
    requires { AreSeatsOf N.scenario N.opening cpus.old.items }
    ensures room { IfOk result (λ cells. vec_len cells ≤ vec_capacity cpus.new) }
    ensures empty { IfOk result (λ cells. cpus.new.items ≡ []) }
{
    let Ok(mut cells) = Vec::with_capacity(alloc, cpus.len()) else {
        return Err(NoMemory);
    };
    while let Some(cpu) = cpus.pop() {
        cells.push_reserved(Mutex::new(SeatCell::new(cpu)));
    }
    Ok(cells)
}

/// Takes the seats out of the cells. It takes no memory.
pub(crate) fn seats_back<N: RunName>(cells: Vec<Mutex<SeatCell<N>>>, cpus: &mut Vec<Cpu>)
    requires room { vec_len cells ≤ vec_capacity cpus.old }
    requires empty { cpus.old.items ≡ [] }
    ensures { AreSeatsOf N.scenario N.opening cpus.new.items }
{
    let mut cells = cells;
    while let Some(cell) = cells.pop() {
        let mut cell = cell.into_inner();
        if let Some(cpu) = cell.take() {
            cpus.push_reserved(cpu);
        }
    }
}
