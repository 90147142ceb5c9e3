// The listing of 1,025 lexemes: refusal 31 at the last.
#![tactic(auto)]

fn main(rt: HostRuntime) {
    let _ = report::print_listing(&mut rt.stdin(), &mut rt.stdout(), &mut rt.stderr());
}
