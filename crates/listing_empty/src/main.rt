// The listing of the empty text: marked pair (a).
#![tactic(auto)]

fn main(rt: HostRuntime) {
    let _ = report::print_listing(&mut rt.stdin(), &mut rt.stdout(), &mut rt.stderr());
}
