// The tidied text of a protocol: examples/zstack.rcl.
#![tactic(auto)]

fn main(rt: HostRuntime) {
    let _ = report::print_tidied(
        &mut rt.stdin(),
        &mut rt.stdout(),
        &mut rt.stderr(),
        &mut rt.stderr(),
    );
}
