// Rehearses the samples that stand in its folder, and writes each one's name above its listing.
// What it must write was worked out apart from this code.
#![tactic(auto)]

use std::fs;
use std::io::Result;

fn show(rt: &HostRuntime, name: &str) -> Result<()> {
    io::write_all(1, name.as_bytes());
    io::write_all(1, b"\n");
    let input = fs::read(rt, name)?;
    relay::rehearse_read(&input, 1);
    Ok(())
}

fn main(rt: HostRuntime) -> Result<()> {
    show(&rt, "paper.txt")?;
    show(&rt, "no_price.txt")?;
    show(&rt, "clears_at_k.txt")?;
    show(&rt, "no_bids.txt")?;
    balanced(&rt)?;
    show(&rt, "largest.txt")?;
    show(&rt, "refused.txt")?;
    edges(&rt)
}

// Demand equals supply at several neighbouring prices: an odd and an even number of them, and at either
// end of the list.
fn balanced(rt: &HostRuntime) -> Result<()> {
    show(rt, "balanced_odd.txt")?;
    show(rt, "balanced_even.txt")?;
    show(rt, "balanced_from_first.txt")?;
    show(rt, "balanced_to_last.txt")?;
    Ok(())
}

// One fault or one limit each.
fn edges(rt: &HostRuntime) -> Result<()> {
    show(rt, "edges/amount_greatest.txt")?;
    show(rt, "edges/amount_too_great.txt")?;
    show(rt, "edges/count_1001.txt")?;
    show(rt, "edges/count_missing.txt")?;
    show(rt, "edges/count_three_missing.txt")?;
    show(rt, "edges/count_too_huge.txt")?;
    show(rt, "edges/count_zero_extra.txt")?;
    show(rt, "edges/count_zero_torn.txt")?;
    show(rt, "edges/cr_lf.txt")?;
    show(rt, "edges/empty.txt")?;
    show(rt, "edges/empty_line_inside.txt")?;
    show(rt, "edges/extra_empty_line.txt")?;
    show(rt, "edges/extra_line.txt")?;
    show(rt, "edges/k_257.txt")?;
    show(rt, "edges/k_zero.txt")?;
    show(rt, "edges/last_no_newline.txt")?;
    show(rt, "edges/leading_zero.txt")?;
    show(rt, "edges/minus.txt")?;
    show(rt, "edges/missing_before_six.txt")?;
    show(rt, "edges/n_ten.txt")?;
    show(rt, "edges/n_two.txt")?;
    show(rt, "edges/one_price_equal_totals.txt")?;
    show(rt, "edges/one_price_none.txt")?;
    show(rt, "edges/only_n.txt")?;
    show(rt, "edges/other_seeds.txt")?;
    show(rt, "edges/price_above_million.txt")?;
    show(rt, "edges/price_equal.txt")?;
    show(rt, "edges/price_million.txt")?;
    show(rt, "edges/price_zero.txt")?;
    show(rt, "edges/seed_greatest.txt")?;
    show(rt, "edges/seed_too_great.txt")?;
    show(rt, "edges/seed_twenty_one_digits.txt")?;
    show(rt, "edges/seeds_cancel.txt")?;
    show(rt, "edges/seven_demand_before_supply.txt")?;
    show(rt, "edges/seven_demand_later.txt")?;
    show(rt, "edges/seven_first_bid_before_torn_second.txt")?;
    show(rt, "edges/seven_supply_later.txt")?;
    show(rt, "edges/six_before_seven.txt")?;
    show(rt, "edges/six_first_bid_before_extra.txt")?;
    show(rt, "edges/six_in_supply_before_seven.txt")?;
    show(rt, "edges/space_after.txt")?;
    show(rt, "edges/torn_before_six_and_seven.txt")?;
    show(rt, "edges/two_zeros.txt")?;
    show(rt, "edges/zero_seeds.txt")?;
    Ok(())
}
