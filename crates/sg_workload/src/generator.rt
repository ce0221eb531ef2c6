ghost use Rattle.std.specs.Prelude.{◌≡◌, ◌<◌, ◌≤◌, ◌++◌, ◌∷◌, pos, IfOk, OnOk};
ghost use Rattle.sg_shape.specs.Sound.{IsSound};
ghost use Rattle.sg_workload.specs.Workload.{draw, rect, spot_at, box_at};

use sg_shape::{Path, Rings, Shape, Spot};
use std::alloc::{AllocError, Global};

/// Draws numbers and boxes, one after another.
#[derive(Clone, Copy, Debug)]
pub(crate) struct Generator {
    pub(crate) state: u64,
}

impl Generator {
    /// A number below `n`, which is above 0.
    pub(crate) fn draw(&mut self, n: u32) -> u32
        requires { 1 ≤ n }
        ensures value { result ≡ (draw n self.old.state).0 }
        ensures below { result < n }
        ensures state { self.new.state ≡ (draw n self.old.state).1 }
    {
        self.state = self
            .state
            .wrapping_mul(6_364_136_223_846_793_005)
            .wrapping_add(1_442_695_040_888_963_407);
        ((self.state >> 33) % n as u64) as u32
    }

    /// A box: its lower left corner below 99,000, then its width and its height up to 900. `AllocError` is want of memory.
    #[tactic(auto, unfolding(crate::specs::Workload::rect))]
    pub(crate) fn rect(&mut self, alloc: Global) -> Result<Shape, AllocError>
        ensures shape { IfOk result (λ shape. shape ≡ (rect self.old.state).0) }
        ensures sound { IfOk result IsSound }
        ensures state { OnOk result (self.new.state ≡ (rect self.old.state).1) }
    {
        let x = self.draw(99_000);
        let y = self.draw(99_000);
        let width = 1 + self.draw(900);
        let height = 1 + self.draw(900);
        box_at(alloc, x, y, width, height)
    }
}

/// The box with this lower left corner, spelled from there against the clock.
fn box_at(alloc: Global, x: u32, y: u32, width: u32, height: u32) -> Result<Shape, AllocError>
    requires x { x < 99000 }
    requires y { y < 99000 }
    requires width { width ≤ 900 }
    requires height { height ≤ 900 }
    ensures shape { IfOk result (λ shape. shape ≡ box_at x y width height) }
    ensures sound { IfOk result IsSound }
{
    let mut ring = Path::new(alloc);
    ring.push(spot_at(x, y))?;
    ring.push(spot_at(x + width, y))?;
    ring.push(spot_at(x + width, y + height))?;
    ring.push(spot_at(x, y + height))?;
    ring.push(spot_at(x, y))?;
    let mut rings = Rings::new(alloc);
    rings.push(ring)?;
    Ok(Shape::Polygon(rings))
}

/// The spot with these coordinates.
fn spot_at(x: u32, y: u32) -> Spot
    requires x { x < 100000 }
    requires y { y < 100000 }
    ensures { result ≡ spot_at x y }
{
    Spot {
        x: x as i32,
        y: y as i32,
    }
}
