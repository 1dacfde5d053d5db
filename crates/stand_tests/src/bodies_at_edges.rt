// Bodies at the edges of 32 bits.
use bodies::{Law, TellTale};
use plant::Body;

#[test]
fn the_law_body_holds_its_difference_to_32_bits(rt: HostRuntime) {
    let law = Law { set: 50 };
    assert_eq!(rt; law.work(3, [8, 1, 1, 1])[3], 42);
    assert_eq!(rt; law.work(0, [-2_147_483_648, 0, 0, 0])[0], 2_147_483_647);
    let low = Law { set: -10 };
    assert_eq!(rt; low.work(0, [2_147_483_647, 0, 0, 0])[1], -2_147_483_648);
    let mut values = [0; 32];
    values[0] = 50;
    assert!(rt; !law.test(9, &values));
    values[0] = 51;
    assert!(rt; law.test(9, &values));
}

#[test]
fn the_tell_tale_body_tells_task_output_and_inputs(rt: HostRuntime) {
    let body = TellTale;
    let told = body.work(1, [0, 0, 0, 0]);
    assert_eq!(rt; told[0], 101);
    assert_eq!(rt; told[1], 111);
    assert_eq!(rt; body.work(63, [1, 2, 3, 4])[3], 6_341);
    assert_eq!(rt;
        body.work(0, [2_147_483_647, 2_147_483_647, 0, 0])[0],
        2_147_483_647
    );
    assert_eq!(rt;
        body.work(0, [-2_147_483_648, -1, -1, -1])[0],
        -2_147_483_648
    );
    let mut values = [0; 32];
    values[31] = -1;
    assert!(rt; body.test(31, &values));
    assert!(rt; body.test(255, &values));
    assert!(rt; !body.test(32, &values));
}
