// The listing of 65 openers: refusal 30 at the last.
#![tactic(auto)]

fn main(rt: HostRuntime) {
    let _ = report::print_listing(&mut rt.stdin(), &mut rt.stdout(), &mut rt.stderr());
}
