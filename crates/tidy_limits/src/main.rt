// The tidied text of 65,536 bytes, each a lexeme: 32,768 brackets in one another.
#![tactic(auto)]

fn main(rt: HostRuntime) {
    let _ = report::print_tidied(
        &mut rt.stdin(),
        &mut rt.stdout(),
        &mut rt.stderr(),
        &mut rt.stderr(),
    );
}
