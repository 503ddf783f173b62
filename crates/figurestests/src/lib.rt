// Tests of rounding, month figures, their limits and ratings.
#![tactic(auto)]

#[cfg(test)]
mod tests {
    use figures::{Month, round_half_down};
    use rating::rating;
    use refusal::Refusal;

    // An exact half goes down, anything above it up, and a quotient by 0 is 0.
    #[test]
    fn halves_go_down(rt: HostRuntime) {
        assert_eq!(rt; round_half_down(5, 2), 2);
        assert_eq!(rt; round_half_down(51, 20), 3);
        assert_eq!(rt; round_half_down(49, 20), 2);
        assert_eq!(rt; round_half_down(7, 1), 7);
        assert_eq!(rt; round_half_down(u64::MAX, 1), u64::MAX);
        assert_eq!(rt; round_half_down(u64::MAX, 2), u64::MAX / 2);
        assert_eq!(rt; round_half_down(9, 0), 0);
    }

    // N_E of these indices, where they are taken.
    fn ne(s: u64, mx: u64, nc: u64) -> Option<u32> {
        Month::from_indices(s, mx, nc).map(Month::ne)
    }

    // At the base indices N_E is 1; with s 892,572 it is 1.0019.
    #[test]
    fn known_month_figures(rt: HostRuntime) {
        assert_eq!(rt; ne(888_131, 141_151, 10_000), Some(10_000));
        assert_eq!(rt; ne(892_572, 141_151, 0), Some(10_019));
        assert_eq!(rt; ne(1, 1, 99_999), Some(4_250));
    }

    // Indices from 1 to 9,999,999, and figures up to 99,999.
    #[test]
    fn limits_of_a_month(rt: HostRuntime) {
        assert_eq!(rt; ne(0, 141_151, 10_000), None);
        assert_eq!(rt; ne(888_131, 0, 10_000), None);
        assert_eq!(rt; ne(10_000_000, 141_151, 10_000), None);
        assert_eq!(rt; ne(888_131, 10_000_000, 10_000), None);
        assert_eq!(rt; ne(888_131, 141_151, 100_000), None);
        assert_eq!(rt; ne(9_999_999, 9_999_999, 10_000), None);
        assert_eq!(rt; ne(u64::MAX, 141_151, 10_000), None);
    }

    // The tenths of a rating, and the place of a refusal.
    fn tenths(network: u64, ampere: u64) -> Result<u16, (u8, u64)> {
        rating(network, ampere)
            .map_err(Refusal::from)
            .map_err(|refusal| (refusal.number, refusal.place))
    }

    // The corners of the published table, and what lies outside it.
    #[test]
    fn corners_of_the_rating_table(rt: HostRuntime) {
        assert_eq!(rt; tenths(1, 4), Ok(9));
        assert_eq!(rt; tenths(1, 18), Ok(41));
        assert_eq!(rt; tenths(2, 16), Ok(64));
        assert_eq!(rt; tenths(3, 4), Ok(28));
        assert_eq!(rt; tenths(3, 18), Ok(125));
        assert_eq!(rt; tenths(1, 3), Err((21, 3)));
        assert_eq!(rt; tenths(3, 19), Err((21, 19)));
        assert_eq!(rt; tenths(0, 10), Err((21, 10)));
        assert_eq!(rt; tenths(4, u64::MAX), Err((21, u64::MAX)));
    }
}
