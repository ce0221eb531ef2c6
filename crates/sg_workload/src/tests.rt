use crate::generator::Generator;
use crate::make_script;
use sg_modes::Session;
use sg_plain::Statement;
use sg_script::Script;
use sg_shape::{Shape, Spot};
use std::test::Fail;

// The numbers that are wanted here were worked out apart from this program.

/// The lower left and the upper right corner of a box.
#[derive(Clone, Copy, Debug, PartialEq, Eq)]
struct Corners {
    low: Spot,
    high: Spot,
}

impl Corners {
    /// The corners of a polygon's first ring: `None` for any other shape.
    fn of(shape: &Shape) -> Option<Corners> {
        let Shape::Polygon(rings) = shape else {
            return None;
        };
        let ring = rings.at(0)?;
        Some(Corners {
            low: *ring.at(0)?,
            high: *ring.at(2)?,
        })
    }
}

/// A box by its corners.
fn box_between(left: i32, bottom: i32, right: i32, top: i32) -> Option<Corners> {
    Some(Corners {
        low: Spot { x: left, y: bottom },
        high: Spot { x: right, y: top },
    })
}

/// The box of the row at this place.
fn box_of_row(script: &Script, place: usize) -> Option<Corners> {
    let (_, shape) = script.rows().at(place)?;
    Corners::of(shape)
}

#[test]
fn first_draw(rt: HostRuntime) {
    let mut generator = Generator { state: 7 };
    let x = generator.draw(99_000);
    assert_eq!(rt; generator.state, 9_098_160_460_397_411_210);
    assert_eq!(rt; x, 63_278);
}

#[test]
fn a_small_table(rt: HostRuntime) -> Result<(), Fail> {
    let script = make_script(rt.alloc(), 7, 3, 2)?;
    assert_eq!(rt; script.settings().window, 64);
    assert_eq!(rt; script.rows().len(), 3);
    assert_eq!(rt; script.sessions().len(), 2);
    assert_eq!(rt; script.order().len(), 0);
    assert_eq!(rt;
        box_of_row(&script, 0),
        box_between(63_278, 92_231, 63_432, 92_705)
    );
    assert_eq!(rt;
        box_of_row(&script, 2),
        box_between(57_739, 77_686, 58_635, 77_762)
    );
    Ok(())
}

#[test]
fn the_last_transaction(rt: HostRuntime) -> Result<(), Fail> {
    let script = make_script(rt.alloc(), 7, 3, 2)?;
    let second = Session::new(2).ok_or("a session")?;
    let transaction = script.transaction_of(second, 2).ok_or("a transaction")?;
    let [
        Statement::Select(query),
        Statement::Update(changed, moved),
        Statement::Insert(key, added),
    ] = transaction.as_slice()
    else {
        return Err(Fail::from("three statements"));
    };
    assert_eq!(rt;
        Corners::of(&query.shape),
        box_between(3_781, 76_250, 4_316, 76_983)
    );
    assert_eq!(rt; *changed, 3);
    assert_eq!(rt;
        Corners::of(moved),
        box_between(26_576, 90_432, 27_454, 91_032)
    );
    assert_eq!(rt; *key, 9);
    assert_eq!(rt;
        Corners::of(added),
        box_between(76_178, 10_867, 77_018, 11_547)
    );
    Ok(())
}

#[test]
fn many_rows(rt: HostRuntime) -> Result<(), Fail> {
    let script = make_script(rt.alloc(), 7, 300, 1)?;
    assert_eq!(rt; script.rows().len(), 300);
    assert_eq!(rt;
        box_of_row(&script, 299),
        box_between(57_655, 69_603, 58_553, 69_672)
    );
    Ok(())
}
