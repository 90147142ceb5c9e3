// The listing of 4,097 bytes: refusal 2.
#![tactic(auto)]

fn main(rt: HostRuntime) {
    let _ = report::print_listing(&mut rt.stdin(), &mut rt.stdout(), &mut rt.stderr());
}
