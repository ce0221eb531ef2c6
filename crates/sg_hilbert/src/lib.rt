//! The Hilbert curve through squares of side 4, 8 and 16 (D. Hilbert, "Über die stetige Abbildung einer
//! Linie auf ein Flächenstück", 1891): the place of each spot on it, and the spot of each place.
//!
//! A spot is a column and a row, counted from 0 at the lower left. Places are counted from 0 along the
//! curve, which begins lower left and ends lower right.
#![tactic(auto)]

mod curve;
mod laws;

pub use curve::{place_of, spot_of};
pub use laws::curve_laws;

#[cfg(test)]
mod tests {
    use super::*;

    #[test]
    fn the_table_of_side_4(rt: HostRuntime) {
        // from the lowest row to the highest
        let rows: [[u8; 4]; 4] = [[0, 1, 14, 15], [3, 2, 13, 12], [4, 7, 8, 11], [5, 6, 9, 10]];
        for y in 0..4u8 {
            for x in 0..4u8 {
                let place = place_of(4, x, y);
                assert_eq!(rt; place, rows[y as usize][x as usize]);
                assert_eq!(rt; spot_of(4, place), (x, y));
            }
        }
    }

    #[test]
    fn rows_of_side_8(rt: HostRuntime) {
        for (place, x, y) in [(32, 4, 4), (13, 1, 2), (16, 0, 4)] {
            assert_eq!(rt; place_of(8, x, y), place);
            assert_eq!(rt; spot_of(8, place), (x, y));
        }
    }

    #[test]
    fn corners(rt: HostRuntime) {
        curve_laws();
        for (side, last) in [(4, 15), (8, 63), (16, 255)] {
            assert_eq!(rt; spot_of(side, 0), (0, 0));
            assert_eq!(rt; spot_of(side, last), (side - 1, 0));
            assert_eq!(rt; place_of(side, 0, 0), 0);
            assert_eq!(rt; place_of(side, side - 1, 0), last);
        }
    }
}
