// Bounded lists at their edges.
use bounded::Bounded;

#[test]
fn fills_up_and_empties(rt: HostRuntime) {
    let mut list: Bounded<u8, 2> = Bounded::new(0);
    assert!(rt; list.is_empty());
    assert!(rt; list.push(7).is_ok());
    assert!(rt; list.push(8).is_ok());
    assert!(rt; list.push(9).is_err());
    assert_eq!(rt; list.len(), 2);
    assert_eq!(rt; list.get(1), Some(8));
    assert_eq!(rt; list.get(2), None);
    assert_eq!(rt; list.pop(), Some(8));
    assert_eq!(rt; list.pop(), Some(7));
    assert_eq!(rt; list.pop(), None);
}

#[test]
fn takes_a_slice_whole_or_not_at_all(rt: HostRuntime) {
    let mut list: Bounded<u8, 3> = Bounded::new(0);
    assert!(rt; list.extend_from_slice(&[1, 2]).is_ok());
    assert!(rt; list.extend_from_slice(&[3, 4]).is_err());
    assert_eq!(rt; list.len(), 2);
    assert!(rt; list.extend_from_slice(&[5]).is_ok());
    assert!(rt; list.extend_from_slice(&[]).is_ok());
    assert_eq!(rt; list.get(2), Some(5));
}

#[test]
fn takes_the_first_of_an_array(rt: HostRuntime) {
    let first: Bounded<u8, 2> = Bounded::from_array_len([7, 8], 1);
    assert_eq!(rt; first.len(), 1);
    assert_eq!(rt; first.get(0), Some(7));
    let none: Bounded<u8, 2> = Bounded::from_array_len([7, 8], 0);
    assert!(rt; none.is_empty());
    let whole: Bounded<u8, 2> = Bounded::from_array_len([7, 8], 3);
    assert_eq!(rt; whole.len(), 2);
    assert_eq!(rt; whole.get(1), Some(8));
}
