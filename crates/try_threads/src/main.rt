//! What no contract can say of the server's threads, seen in runs: that links are served side by side, that a link which ended is
//! given back before an older one that still talks, that an answer is handed on before the next request is read, that workers run
//! jobs while links are open, that a knock and a kill are answered while a job runs, that a kill, and a time, end a search that
//! would take hours, and that over TCP a client reads its answer and then the end while another link is open.
//!
//! The output comes from the rules (`docs/rules/`): what is answered where it is so. Where it isn't, a thread waits so
//! long at most, or a client asks so often at most, and something else is written.
#![tactic(auto)]

mod clients;
mod links;
mod loopback;
mod names;
mod searches;
mod served;
mod waiting;
mod working;

use loopback::serve_over_loopback;
use served::{
    answer_before_reading_on, knock_beside_a_worker, make_room_by_ending, serve_two_links,
};
use std::io;
use working::{end_a_long_search_in_time, kill_a_long_search, kill_with_a_point};

fn main(rt: HostRuntime) -> io::Result<()> {
    let links = serve_two_links(&rt, rt.alloc())?;
    let room = make_room_by_ending(&rt, rt.alloc())?;
    let turns = answer_before_reading_on(&rt, rt.alloc())?;
    let worker = knock_beside_a_worker(&rt, rt.alloc())?;
    let kill = kill_with_a_point(&rt, rt.alloc())?;
    let hours = kill_a_long_search(&rt, rt.alloc())?;
    let time = end_a_long_search_in_time(&rt, rt.alloc())?;
    let tcp = serve_over_loopback(&rt, rt.alloc())?;
    print!(rt; "{links}{room}{turns}{worker}{kill}{hours}{time}{tcp}")
}
