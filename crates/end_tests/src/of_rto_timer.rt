//! Values that the arithmetic gives, and its limits.
use stack_timers::Rto;

// A sample of two seconds: SRTT 2000, RTTVAR 1000. A second one: RTTVAR 750.
#[test]
fn a_second_equal_sample_lowers_the_value(rt: HostRuntime) {
    let mut timer = Rto::new();
    assert!(rt; timer.value() == 1000);
    timer.sample(2);
    assert!(rt; timer.value() == 6000);
    timer.sample(2);
    assert!(rt; timer.value() == 5000);
}

#[test]
fn a_value_is_doubled_up_to_a_minute_and_no_further(rt: HostRuntime) {
    let mut timer = Rto::new();
    for value in [2000, 4000, 8000, 16_000, 32_000, 60_000, 60_000] {
        timer.back_off();
        assert!(rt; timer.value() == value);
    }
    timer.sample(0);
    assert!(rt; timer.value() == 1000);
}

// After samples of 3 and 0 seconds SRTT is 2625 and RTTVAR 1875.
#[test]
fn the_variation_is_measured_from_the_old_mean(rt: HostRuntime) {
    let mut timer = Rto::new();
    timer.sample(3);
    assert!(rt; timer.value() == 9000);
    timer.sample(0);
    assert!(rt; timer.value() == 10_125);
}
