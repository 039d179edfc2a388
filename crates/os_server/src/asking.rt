//! What the body of a request asks.
ghost use Rattle.std.specs.Prelude.{◌≡◌, ◌++◌, ◌≢◌, [], ℕ, List, Result, Ok, Err, IfOk, OnOk, IfErr};
ghost use Rattle.soap_calls.specs.declared.call.SoapCall as call_types;
ghost use Rattle.soap_calls.specs.Reading.{HasTaken};
ghost use Rattle.soap_calls.specs.Refusals.{CallFails};
ghost use Rattle.osol_grammar.specs.declared.options.Options as options_types;
ghost use Rattle.osol_grammar.specs.Reading.{DecodeFails};
ghost use Rattle.ospl_grammar.specs.Refusals as ospl;
ghost use Rattle.osol_grammar.specs.Meaning.{IsOptionsText};
ghost use Rattle.os_server.specs.Orders.{NamesJob, SaysProcess, Orders, Asks, AsksNothing, OrdersNothing, IsAsked};

use crate::fault::{FaultCode, OrderFault};
use crate::order::Order;
use job_table::read_id;
use os_io::{Memory, Text};
use osol_grammar::{Options, OsolFault};
use ospl_grammar::OsplFault;
use soap_calls::{CallReader, Parts, SoapCall, SoapFault};
use std::alloc::Global;

/// One text behind another.
fn joined(alloc: Global, front: &[u8], back: &[u8]) -> Result<Text, Memory>
    ensures { IfOk result (λ text. text ≡ front.now ++ back.now) }
{
    let mut text = Text::from_slice(alloc, front)?;
    text.extend(back)?;
    Ok(text)
}

/// Why bytes that are refused as a call ask nothing.
fn refused_call(alloc: Global, fault: SoapFault) -> OrderFault
    ensures { (body : List ℕ) → CallFails body fault → AsksNothing body result }
{
    match fault {
        SoapFault::Envelope => OrderFault::Envelope,
        SoapFault::Call { name } => match joined(alloc, b"unknown call ", name.as_slice()) {
            Ok(text) => OrderFault::Fault {
                code: FaultCode::Call,
                text,
            },
            Err(_) => OrderFault::Memory,
        },
        SoapFault::Part { part } => match joined(alloc, b"part ", part.name()) {
            Ok(text) => OrderFault::Fault {
                code: FaultCode::Part,
                text,
            },
            Err(_) => OrderFault::Memory,
        },
        SoapFault::Memory => OrderFault::Memory,
    }
}

/// Why options that are refused leave a call without an order.
fn refused_options(alloc: Global, fault: OsolFault) -> OrderFault
    ensures { (call : call_types.SoapCall) → DecodeFails call.parts.osol fault → OrdersNothing call result }
{
    match osol_grammar::refusal_text(alloc, fault) {
        Ok(text) => OrderFault::Fault {
            code: FaultCode::Options,
            text,
        },
        Err(_) => OrderFault::Memory,
    }
}

/// Why a process that is refused leaves a call without an order.
fn refused_process(alloc: Global, fault: OsplFault) -> OrderFault
    ensures { (call : call_types.SoapCall) (said : options_types.Options) → IsOptionsText call.parts.osol said → call.parts.ospl ≢ [] → ospl.DecodeFails call.parts.ospl fault → OrdersNothing call result }
{
    match ospl_grammar::refusal_text(alloc, fault) {
        Ok(text) => OrderFault::Fault {
            code: FaultCode::Process,
            text,
        },
        Err(_) => OrderFault::Memory,
    }
}

/// The number of the job that options name, if they name one.
fn job_in(options: &Options) -> Option<u64>
    ensures { NamesJob options.now result }
{
    match &options.job {
        Some(id) => read_id(id.as_slice()),
        None => read_id(b""),
    }
}

/// Reads the options of a call.
fn read_options(alloc: Global, call: &SoapCall) -> Result<Options, OrderFault>
    ensures ok { IfOk result (IsOptionsText call.now.parts.osol) }
    ensures err { IfErr result (OrdersNothing call.now) }
{
    match osol_grammar::decode(alloc, call.parts.osol.as_slice()) {
        Ok(options) => Ok(options),
        Err(fault) => Err(refused_options(alloc, fault)),
    }
}

/// Reads the process of a call with these options. It may be empty, as it is where the call has none.
fn check_process(alloc: Global, call: &SoapCall, options: &Options) -> Result<(), OrderFault>
    requires { IsOptionsText call.now.parts.osol options.now }
    ensures ok { OnOk result (SaysProcess call.now.parts.ospl) }
    ensures err { IfErr result (OrdersNothing call.now) }
{
    let process = call.parts.ospl.as_slice();
    if process.is_empty() {
        return Ok(());
    }
    match ospl_grammar::decode(alloc, process) {
        Ok(_) => Ok(()),
        Err(fault) => Err(refused_process(alloc, fault)),
    }
}

/// What a call with these options asks.
fn order_with(call: SoapCall, options: &Options) -> Order
    ensures { IsAsked call options.now result }
{
    let SoapCall { kind, parts } = call;
    let Parts {
        osil,
        osol,
        ospl: _,
    } = parts;
    Order {
        kind,
        job: job_in(options),
        osil,
        osol,
    }
}

/// What a call asks, or why it asks nothing.
fn order_of(alloc: Global, call: SoapCall) -> Result<Order, OrderFault>
    ensures ok { IfOk result (Orders call) }
    ensures err { IfErr result (OrdersNothing call) }
{
    let options = match read_options(alloc, &call) {
        Ok(options) => options,
        Err(none) => return Err(none),
    };
    match check_process(alloc, &call, &options) {
        Ok(()) => Ok(order_with(call, &options)),
        Err(none) => Err(none),
    }
}

/// What a body asks that was read, or why it asks nothing: first its envelope is read, then its call, the parts, the options, and of
/// a knock the process.
pub(crate) fn read_order(alloc: Global, body: CallReader) -> Result<Order, OrderFault>
    ensures ok { (bytes : List ℕ) → HasTaken body bytes → IfOk result (Asks bytes) }
    ensures err { (bytes : List ℕ) → HasTaken body bytes → IfErr result (AsksNothing bytes) }
{
    match body.finish() {
        Ok(call) => order_of(alloc, call),
        Err(fault) => Err(refused_call(alloc, fault)),
    }
}
