// The tidied text of standard input on standard output, or the refusal's line on standard error. Stored here: document 01's worked text.
#![tactic(auto)]

fn main(rt: HostRuntime) {
    let _ = report::print_tidied(
        &mut rt.stdin(),
        &mut rt.stdout(),
        &mut rt.stderr(),
        &mut rt.stderr(),
    );
}
