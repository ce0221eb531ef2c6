use super::*;
use std::test::Fail;

#[test]
fn groups_of_numbers(rt: HostRuntime) -> Result<(), Fail> {
    let mut groups: Groups<u8, u32> = Groups::new(rt.alloc());
    groups.reserve(3)?;
    assert!(rt; groups.spare() >= 3);
    groups.insert_reserved(2, 20);
    groups.insert_reserved(2, 10);
    groups.insert_reserved(1, 30);
    assert!(rt; groups.contains(&2, &10));
    assert!(rt; !groups.contains(&1, &10));
    assert_eq!(rt; groups.first(&2), Some(10));
    assert_eq!(rt; groups.next(&2, Some(10)), Some(20));
    assert_eq!(rt; groups.next(&2, Some(20)), None);
    groups.remove(&2, &10);
    assert_eq!(rt; groups.first(&2), Some(20));
    assert_eq!(rt; groups.first(&3), None);
    Ok(())
}
