// The terminal's `main`, run with no argument: one card file on standard input, and its bare line.
#![tactic(auto)]

use window::serve;

fn main(rt: HostRuntime) {
    serve(&rt, &rt.stderr());
}
