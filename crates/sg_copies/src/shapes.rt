//! Shapes that several copies of the rows hold at once.
ghost use Rattle.std.specs.Prelude.{◌≡◌, IfOk};

use sg_shape::Shape;
use std::alloc::{AllocError, Global};
use std::marker::Model;
use std::sync::Arc;

/// A shape that is kept once, however many hold it. Contracts see it as the shape.
#[derive(Drop)]
pub(crate) struct SharedShape {
    shape: Arc<Shape>,
}

impl Model for SharedShape {
    ghost use Rattle.std.specs.Arc.{arc_value};
    ghost use Rattle.sg_shape.specs.declared.shapes.Shape.{Shape};

    ghost Value = { Shape };

    ghost view = { λ it. arc_value it.shape };
}

impl SharedShape {
    /// A copy of this shape, to be shared. `AllocError` is want of memory.
    pub fn of(alloc: Global, shape: &Shape) -> Result<SharedShape, AllocError>
        ensures { IfOk result (λ it. it ≡ shape.now) }
    {
        Ok(SharedShape {
            shape: Arc::new(alloc, shape.copy(alloc)?)?,
        })
    }

    /// The same shape once more, which isn't copied. `AllocError` comes where too many hold it.
    pub fn again(&self) -> Result<SharedShape, AllocError>
        ensures { IfOk result (λ it. it ≡ self.now) }
    {
        Ok(SharedShape {
            shape: Arc::try_clone(&self.shape)?,
        })
    }

    /// The shape.
    pub fn get(&self) -> &Shape
        ensures { result.now ≡ self.now }
    {
        &self.shape
    }
}
