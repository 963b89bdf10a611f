//! Worked examples of the definitions of `specs/`. The functions do nothing but call laws: their contracts are the statements.
ghost use Rattle.mail_workers.specs.Examples.{DrawnTwiceExample, MidwayExample, SkippedExample};
ghost use Rattle.mail_workers.specs.IndexingExamples.{OpensExample, PacksExample, IndexesExample, RaisesExample, FinishedExample, NotSinceExample};
ghost use Rattle.mail_workers.specs.IndexingExamples.{MovedExample, NotMovedExample, GainedExample, DroppedExample, IndexedExample, JoinedBackExample};

use tx_model::laws::split_shares;

/// Two passes of a queue of three.
pub fn job_examples()
    ensures midway { MidwayExample }
    ensures drawn_twice { DrawnTwiceExample }
    ensures skipped { SkippedExample }
{
    split_shares();
}

/// What a commit of a worker does to an index, and when a message is finished.
pub fn move_examples()
    ensures opens { OpensExample }
    ensures packs { PacksExample }
    ensures indexes { IndexesExample }
    ensures raises { RaisesExample }
    ensures finished { FinishedExample }
    ensures not_since { NotSinceExample }
{}

/// What a pass, and all passes together, came to.
pub fn pass_examples()
    ensures moved { MovedExample }
    ensures not_moved { NotMovedExample }
    ensures gained { GainedExample }
    ensures dropped { DroppedExample }
    ensures indexed { IndexedExample }
    ensures joined_back { JoinedBackExample }
{}
