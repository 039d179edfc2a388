//! What a request asks.
ghost use Rattle.std.specs.Prelude.{◌≡◌};
ghost use Rattle.os_server.specs.Answers.{number_for};

use os_io::Text;
use soap_calls::CallKind;

/// What a request asks: a call, for the job with this number, if one is named, with the texts of an instance and of options, each
/// empty where the request has none.
#[derive(Drop)]
pub struct Order {
    pub kind: CallKind,
    pub job: Option<u64>,
    pub osil: Text,
    pub osol: Text,
}

/// The number by which moves of the table say what is named: 0, which no job has, for none.
pub(crate) fn number_for(job: Option<u64>) -> u64
    ensures { result ≡ number_for job }
{
    match job {
        Some(number) => number,
        None => 0,
    }
}
