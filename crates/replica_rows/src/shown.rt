//! What was seen, in words.

use crate::stops::Stop;
use sg_plain::Answer;
use sg_replica::Seen;
use sg_shape::Shape;

/// Prints the place and the answer.
pub fn print(rt: &HostRuntime, seen: &Seen) -> Result<(), Stop> {
    let place = seen.place;
    match &seen.answer {
        Answer::Absent => println!(rt; "place {place} absent"),
        Answer::Found(Shape::Point(spot)) => {
            let (x, y) = (spot.x, spot.y);
            println!(rt; "place {place} shape POINT ({x} {y})")
        }
        Answer::Keys(keys) => {
            let keys = keys.as_slice();
            println!(rt; "place {place} keys {keys:?}")
        }
        _ => println!(rt; "place {place} something else"),
    }
    .map_err(|_| Stop::Memory)
}
