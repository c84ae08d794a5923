// What `circ` prints: the test of a table, and the text of what comes back.
#![tactic(auto)]

ghost use Rattle.steps.specs.Lent.{held, Lent};
ghost use Rattle.answers.specs.Answered.{TestPrinted};

use steps::Store;

// The text of the test of a table with at most `limit` closures. The stored entries are left at the front of the slices. Where the
// buffer has less than LINE_BYTES for the line of each of them and for OTHER_LINES, it is as before and the answer is 0.
pub fn test_text(buf: &mut [u8], table: &[u8], limit: u32, store: &mut Store<'_>) -> usize
    ensures printed { TestPrinted table.now limit (held store.old) (held store.new) buf.old buf.new result }
    ensures lent { Lent store.old store.new }
{
    let report = passes::test(table, limit, store);
    print::report_text(buf, table, report, store.entries())
}
