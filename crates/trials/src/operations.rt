use program::arith::Op;

#[test]
fn sums_stop_at_the_ends(rt: HostRuntime) {
    assert_eq!(rt; Op::Add.apply(2147483647, 1), 2147483647);
    assert_eq!(rt; Op::Add.apply(-2147483648, -1), -2147483648);
    assert_eq!(rt; Op::Sub.apply(-2147483648, 1), -2147483648);
    assert_eq!(rt; Op::Sub.apply(3, 5), -2);
    assert_eq!(rt; Op::Mul.apply(65536, 65536), 2147483647);
    assert_eq!(rt; Op::Mul.apply(-65536, 65536), -2147483648);
    assert_eq!(rt; Op::Mul.apply(6, 25), 150);
}

#[test]
fn quotients_drop_the_fraction(rt: HostRuntime) {
    assert_eq!(rt; Op::Div.apply(-7, 2), -3);
    assert_eq!(rt; Op::Div.apply(7, -2), -3);
    assert_eq!(rt; Op::Div.apply(7, 2), 3);
    assert_eq!(rt; Op::Div.apply(5, 0), 0);
    assert_eq!(rt; Op::Div.apply(-2147483648, -1), 2147483647);
    assert_eq!(rt; Op::Min.apply(-3, 4), -3);
    assert_eq!(rt; Op::Max.apply(-3, 4), 4);
}
