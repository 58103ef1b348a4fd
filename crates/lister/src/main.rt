// Lists the atlas file on standard input (document 01, 'Two programs').

#![tactic(auto)]

use programs::FILE_SIZE;

fn main(rt: HostRuntime) {
    streams::print_report_unchecked(
        &mut rt.stdin(),
        &mut rt.stdout(),
        &mut [0u8; FILE_SIZE],
        programs::listing,
    );
}
