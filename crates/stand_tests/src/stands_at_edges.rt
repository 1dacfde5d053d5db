// Plants at the edges of their levels and numbers.
use plant::Plant;
use stands::{Rack, Tank};
use tables::{Communicator, Use};
use wiring::{drive_due, sense_due};

#[test]
fn a_level_is_held_between_0_and_10000(rt: HostRuntime) {
    let mut tank = Tank::new();
    tank.drive(8, 9_999);
    tank.pass();
    assert_eq!(rt; tank.sense(0), 9_999);
    tank.drive(8, 1);
    tank.pass();
    assert_eq!(rt; tank.sense(0), 10_000);
    tank.pass();
    assert_eq!(rt; tank.sense(0), 10_000);
    tank.drive(8, -2_147_483_648);
    tank.pass();
    assert_eq!(rt; tank.sense(0), 0);
    tank.drive(10, 2_147_483_647);
    tank.pass();
    assert_eq!(rt; tank.sense(2), 10_000);
    assert_eq!(rt; tank.sense(1), 0);
}

#[test]
fn numbers_above_31_read_0_and_do_nothing(rt: HostRuntime) {
    let mut tank = Tank::new();
    tank.drive(31, 7);
    tank.drive(32, 8);
    tank.drive(255, 9);
    assert_eq!(rt; tank.shown(31), 7);
    assert_eq!(rt; tank.shown(32), 0);
    assert_eq!(rt; tank.shown(255), 0);
    assert_eq!(rt; tank.sense(3), 0);
    assert_eq!(rt; tank.sense(255), 0);
}

#[test]
fn a_wired_sensor_answers_its_output(rt: HostRuntime) {
    let mut wires = [255; 32];
    wires[0] = 8;
    wires[31] = 31;
    let mut rack = Rack::new(wires);
    rack.drive(8, 5);
    rack.drive(31, -6);
    rack.pass();
    assert_eq!(rt; rack.sense(0), 5);
    assert_eq!(rt; rack.sense(31), -6);
    assert_eq!(rt; rack.sense(1), 0);
    assert_eq!(rt; rack.sense(32), 0);
}

#[test]
fn only_what_is_due_is_driven_and_sensed(rt: HostRuntime) {
    let communicators = [
        Communicator {
            period: 2,
            kind: Use::Actuator,
            initial: 0,
        },
        Communicator {
            period: 3,
            kind: Use::Sensor,
            initial: 0,
        },
    ];
    let mut wires = [255; 32];
    wires[1] = 0;
    let mut rack = Rack::new(wires);
    let mut values = [4; 32];
    drive_due(&mut rack, &communicators, 3, &values);
    assert_eq!(rt; rack.shown(0), 0);
    drive_due(&mut rack, &communicators, 4, &values);
    assert_eq!(rt; rack.shown(0), 4);
    values[1] = 0;
    sense_due(&rack, &communicators, 4, &mut values);
    assert_eq!(rt; values[1], 0);
    sense_due(&rack, &communicators, 6, &mut values);
    assert_eq!(rt; values[1], 4);
}
