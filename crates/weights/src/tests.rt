// Both ends of each cut, from both sides, and the ends of the grey scale.
use crate::{Paired, Plain, Weight, convert};
use refusals::Refusal;

const TOP: i64 = 1 << 30;

#[test]
fn making_cuts_at_the_limit(rt: HostRuntime) {
    let cases: [(i64, i64); 6] = [
        (TOP - 1, TOP - 1),
        (TOP, TOP),
        (TOP + 1, TOP),
        (1 - TOP, 1 - TOP),
        (-TOP, -TOP),
        (-TOP - 1, -TOP),
    ];
    for (given, made) in cases {
        assert_eq!(rt; i64::from(Plain::new(given).value()), made);
        let pair = Paired::new(given, -given);
        assert_eq!(rt;
            (i64::from(pair.grey()), i64::from(pair.dark())),
            (made, -made)
        );
    }
    assert_eq!(rt; Plain::new(i64::MIN).size(), 1 << 30);
}

#[test]
fn sums_and_differences_cut_there(rt: HostRuntime) {
    let top = Plain::new(TOP);
    let bottom = Plain::new(-TOP);
    let one = Plain::new(1);
    assert_eq!(rt; top.plus(top), top);
    assert_eq!(rt; top.minus(one).plus(one), top);
    assert_eq!(rt; bottom.minus(one), bottom);
    assert_eq!(rt; bottom.plus(one).minus(one), bottom);
    let pair = Paired::new(TOP, 7).plus(Paired::new(1, -9));
    assert_eq!(rt; pair, Paired::new(TOP, -2));
}

#[test]
fn moves_cut_at_their_own_limit(rt: HostRuntime) {
    let limit: i64 = 1 << 18;
    let cases: [(i64, bool, i64); 6] = [
        (limit - 4096, true, limit),
        (limit - 4095, true, limit),
        (limit - 4097, true, limit - 1),
        (4096 - limit, false, -limit),
        (4095 - limit, false, -limit),
        (4097 - limit, false, 1 - limit),
    ];
    for (from, up, to) in cases {
        assert_eq!(rt; Plain::new(from).moved(4096, up), Plain::new(to));
        assert_eq!(rt;
            Paired::new(from, 0).moved(4096, up).grey(),
            Plain::new(to).value()
        );
    }
    assert_eq!(rt; Plain::new(TOP).moved(1, false), Plain::new(limit));
}

#[test]
fn pairs_compare_by_grey_then_dark(rt: HostRuntime) {
    assert!(rt; Paired::new(-1, TOP).below(Paired::new(0, -TOP)));
    assert!(rt; Paired::new(3, -1).below(Paired::new(3, 0)));
    assert!(rt; !Paired::new(3, 0).below(Paired::new(3, 0)));
}

#[test]
fn greys_become_costs(rt: HostRuntime) {
    let greys = [0u8, 128, 255];
    let mut plain = [Plain::new(7); 3];
    assert_eq!(rt; convert(&greys, &mut plain), Ok(()));
    assert_eq!(rt; plain[0].value(), -32768);
    assert_eq!(rt; plain[1].value(), 0);
    assert_eq!(rt; plain[2].value(), 32512);
    let mut paired = [Paired::new(7, 7); 3];
    assert_eq!(rt; convert(&greys, &mut paired), Ok(()));
    assert_eq!(rt; paired[2], Paired::new(32512, 1));
    let mut two = [Plain::new(7); 2];
    assert_eq!(rt; convert(&greys, &mut two), Err(Refusal::GreyLength));
    assert_eq!(rt; two[1], Plain::new(7));
}
