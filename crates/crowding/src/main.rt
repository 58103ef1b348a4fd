// Prints how crowded the places of the atlas file on standard input are (document 02, E2).

#![tactic(auto)]

use programs::FILE_SIZE;

fn main(rt: HostRuntime) {
    streams::print_report_unchecked(
        &mut rt.stdin(),
        &mut rt.stdout(),
        &mut [0u8; FILE_SIZE],
        crowding_report::report,
    );
}
