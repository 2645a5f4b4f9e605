ghost use Rattle.nim_funcs.specs.Laws.{AddIsSum, GathersRows, KeepCounts, MergeJoinsGroups, MergeKeepsGroups, SplitsRows, SumInAnyOrder, TotalInAnyOrder};

use nim_base::Value;

/// Split gives each row in one of its two results, and both in the order of the rows.
pub fn split_keeps_all_rows(value: &Value, column: i64, pivot: i64)
    ensures splits { SplitsRows column pivot value.now }
{}

/// The rows that keep keeps and those that it leaves out are together as many as all rows.
pub fn keep_counts_all_rows(value: &Value, column: i64, low: i64, high: i64)
    ensures counts { KeepCounts column low high value.now }
{}

/// Add gives what sum gives for the same two values.
pub fn add_is_sum(first: &Value, second: &Value)
    ensures sum { AddIsSum first.now second.now }
{}

/// Total and sum give the same for the same reads in any order.
pub fn order_is_free(reads: &[Value], others: &[Value])
    ensures total { TotalInAnyOrder reads.now others.now }
    ensures sum { SumInAnyOrder reads.now others.now }
{}

/// The numbers of a group ascend and are those of its column, and its sums add up to the sum over all rows.
pub fn group_gathers_all_rows(value: &Value, column: i64, summed: i64)
    ensures gathers { GathersRows column summed value.now }
{}

/// Merge leaves one grouped value as it is, and of several it gives the group of all their rows.
pub fn merge_joins_groups(value: &Value, values: &[Value], column: i64, summed: i64)
    ensures one { MergeKeepsGroups column summed value.now }
    ensures all { MergeJoinsGroups column summed values.now }
{}
