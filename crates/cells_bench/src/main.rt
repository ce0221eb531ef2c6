//! Cuts shapes into cells, to be timed: `cells_bench DENSITY LIMIT TIMES` reads well-known text, a shape a
//! line, cuts each shape into the cells of the widest grid with four levels of that density (low, medium or
//! high) or with eight levels (auto), that many times, and prints how many cells all shapes have. It ends with 1
//! for other words, with 2 for another text, and with 3 where memory is wanting or input or output fails.
#![tactic(auto)]

ghost use Rattle.sg_shape.specs.Sound.{IsSound};

use sg_cells::{Density, Grid};
use sg_celltest::CellTest;
use sg_io::{StdSource, read_all};
use sg_shape::Shape;
use sg_tess::tessellate;
use sg_wkt::{ReadShape, read_wkt};
use std::alloc::Global;
use std::env;
use std::process::ExitCode;

/// The greatest size of a coordinate.
const LIMIT: i64 = 16_000_000;

/// Why nothing is printed.
#[derive(Drop)]
enum Stop {
    Words,
    Text,
    Other,
}

impl Stop {
    fn number(&self) -> u8 {
        match self {
            Stop::Words => 1,
            Stop::Text => 2,
            Stop::Other => 3,
        }
    }
}

/// What the words ask for.
#[derive(Drop)]
struct Task {
    grid: Grid,
    times: u32,
}

fn main(rt: HostRuntime) -> ExitCode {
    match bench(&rt) {
        Ok(cells) => match println!(rt; "{cells}") {
            Ok(()) => ExitCode::SUCCESS,
            Err(_) => ExitCode::from(Stop::Other.number()),
        },
        Err(stop) => ExitCode::from(stop.number()),
    }
}

fn bench(rt: &HostRuntime) -> Result<u64, Stop> {
    let task = task_of(rt)?;
    let mut source = StdSource::new(rt.stdin());
    let text = read_all(rt.alloc(), &mut source).map_err(|_| Stop::Other)?;
    let mut cells: u64 = 0;
    for line in text.as_slice().split(|byte| *byte == b'\n') {
        if !line.is_empty() {
            cells = cells.saturating_add(cells_of(rt.alloc(), &task, line)?);
        }
    }
    Ok(cells)
}

/// How many cells the shape of a line has.
fn cells_of(alloc: Global, task: &Task, line: &[u8]) -> Result<u64, Stop> {
    match read_wkt(alloc, line) {
        Ok(shape) => cells_in(alloc, task, &shape),
        Err(ReadShape::Fault(_)) => Err(Stop::Text),
        Err(ReadShape::OutOfMemory) => Err(Stop::Other),
    }
}

/// How many cells the shape has, found as often as the task says.
fn cells_in(alloc: Global, task: &Task, shape: &Shape) -> Result<u64, Stop>
    requires { IsSound shape.now }
{
    let mut count = 0;
    for _ in 0..task.times {
        let cells = tessellate(alloc, &CellTest, &task.grid, task.grid.cells(), shape).map_err(
            |_| Stop::Other,
        )?;
        count = cells.len() as u64;
    }
    Ok(count)
}

fn task_of(rt: &HostRuntime) -> Result<Task, Stop> {
    let mut words = env::args(rt).map_err(|_| Stop::Words)?.skip(1);
    let (Some(density), Some(limit), Some(times), None) = (
        words.next(),
        words.next(),
        words.next(),
        words.next(),
    ) else {
        return Err(Stop::Words);
    };
    let limit: i64 = limit.parse().map_err(|_| Stop::Words)?;
    let times: u32 = times.parse().map_err(|_| Stop::Words)?;
    let grid = grid_of(&density, limit)?;
    Ok(Task { grid, times })
}

/// The widest grid of this density at each of four levels, or of eight levels.
fn grid_of(word: &str, limit: i64) -> Result<Grid, Stop> {
    if word == "auto" {
        return Grid::auto(-LIMIT, -LIMIT, LIMIT, LIMIT, limit).map_err(|_| Stop::Words);
    }
    let density = density_of(word).ok_or(Stop::Words)?;
    Grid::new(-LIMIT, -LIMIT, LIMIT, LIMIT, [density; 4], limit).map_err(|_| Stop::Words)
}

fn density_of(word: &str) -> Option<Density> {
    match word {
        "low" => Some(Density::Low),
        "medium" => Some(Density::Medium),
        "high" => Some(Density::High),
        _ => None,
    }
}
