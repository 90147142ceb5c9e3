// The refusal's line in place of a tidied text: examples/unclosed.rcl. It goes to standard output, which is what the gate compares.
#![tactic(auto)]

fn main(rt: HostRuntime) {
    let _ = report::print_tidied(
        &mut rt.stdin(),
        &mut rt.stdout(),
        &mut rt.stdout(),
        &mut rt.stderr(),
    );
}
