// Every event of one W36 read.
ghost use Rattle.at.specs.Walk.{walk};
ghost use Rattle.render.specs.Print.{Prints};
ghost use Rattle.render.specs.Walk.{walk_line};

use at::walk::EventWalk;
use render::word::word;

// The steps of the walk up to its end or its refusal. Each event moves the walk on, so there are no more steps than bytes.
pub(crate) fn every_event(output: &mut [u8], place: usize, src: &[u8]) -> usize
    ensures { Prints output.old place (walk_line src.now (walk src.now)) result output.new }
{
    let mut walk = EventWalk::new();
    let mut to = place;
    loop {
        let step = walk.next(src);
        to = render::w36::step(output, to, src, step);
        let Some(step) = step.unwrap_or(None) else {
            return to;
        };
        to = word(output, to, b" ; ");
        walk = step.rest;
    }
}
