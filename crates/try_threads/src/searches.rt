//! Jobs that are ended before their searches end.

use os_io::Memory;
use std::alloc::Global;

/// The texts of a job.
#[derive(Clone, Copy, Drop)]
pub(crate) struct JobTexts<'a> {
    pub osil: &'a [u8],
    pub osol: &'a [u8],
}

/// max x0 in whole numbers, 2 x0 <= 5. The third look comes before the third node: then the best point so far is 2.
pub(crate) const HALVES: &[u8] =
    b"<osil><instanceData><variables><var type=\"I\"/></variables><objectives><obj maxOrMin=\"max\"><coef idx=\"0\">1</coef></obj></objectives><constraints><con ub=\"5\"/></constraints><linearConstraintCoefficients><start><el>0</el><el>1</el></start><rowIdx><el>0</el></rowIdx><value><el>2</el></value></linearConstraintCoefficients></instanceData></osil>";

/// Options with this of the job, and with as many nodes and turns as options may ask for.
pub(crate) fn greatest_limits(alloc: Global, job: &str) -> Result<String, Memory> {
    format!(in alloc;
        "<osol>{job}<optimization><solverOptions><solverOption name=\"nodeLimit\" value=\"1000000\"/><solverOption name=\"pivotLimit\" value=\"100000000\"/></solverOptions></optimization></osol>"
    )
}

/// How many rows there are.
const ROWS: u32 = 100;

/// 2 x0 + 4 x1 + .. + 1998 x998 = 499501, each variable 0 or 1, and 99 rows more, which ask for nothing and make each turn dear. The sum
/// is even, so no point is feasible, and no case is closed before so many variables are fixed in it that the others can't make up the
/// sum or pass it. The first run makes a turn for each variable that the sum takes, and those up to x706 make half of it: its first 128
/// turns find nothing, and the third look comes behind them.
pub(crate) fn odd_sum(alloc: Global) -> Result<String, Memory> {
    let mut columns = String::new(alloc);
    for _ in 0..ROWS {
        columns.push_str("<el mult=\"999\" incr=\"1\">0</el>")?;
    }
    format!(in alloc;
        "<osil><instanceData><variables><var type=\"B\" mult=\"999\"/></variables><constraints><con lb=\"499501\" ub=\"499501\"/><con mult=\"99\"/></constraints><linearConstraintCoefficients><start><el mult=\"101\" incr=\"999\">0</el></start><colIdx>{columns}</colIdx><value><el mult=\"99900\" incr=\"2\">2</el></value></linearConstraintCoefficients></instanceData></osil>"
    )
}
