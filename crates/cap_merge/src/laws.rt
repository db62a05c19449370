//! What merging does to files, the contract of a function that does nothing.
ghost use Rattle.cap_merge.specs.Merging.{MergeOrder, MergedOnce};

/// If the packets and the refusals of some files have the numbers of their files, the merged list of the files, of
/// which the run is the part up to the first refusal, is a permutation of them all. It is sorted by clock, and by file
/// if clocks are equal; and those of each file keep their order, each with the greatest time so far in its file as its
/// clock (`lists`). No other list is such a merge of the files (`once`).
pub fn merge_order()
    ensures lists { MergeOrder }
    ensures once { MergedOnce }
{}
