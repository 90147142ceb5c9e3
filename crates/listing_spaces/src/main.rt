// The listing of two spaces: one step, and no lexeme.
#![tactic(auto)]

fn main(rt: HostRuntime) {
    let _ = report::print_listing(&mut rt.stdin(), &mut rt.stdout(), &mut rt.stderr());
}
