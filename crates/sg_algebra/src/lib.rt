//! Laws of whole numbers that exact geometry is proved by: the ring laws, order under products, what tests on numbers
//! say, and the tests of `sg_shape` on one edge, read from either end. Nothing of this is run.
#![tactic(auto)]
