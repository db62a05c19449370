//! The laws of the grammar of pcapng files.
ghost use Rattle.cap_blocks.specs.inner.Laws.{OneBlock, OneBlockSplit, EveryBlockSplit, BlockSplitItems, ItemsAtNone};
ghost use Rattle.cap_blocks.specs.inner.Laws.{ItemsAtFault};
ghost use Rattle.cap_blocks.specs.inner.Laws.{ItemsAtBlock, BlockRead, BlockThere, SectionAgain, InterfaceAgain};
ghost use Rattle.cap_blocks.specs.inner.Laws.{PacketAgain};
ghost use Rattle.cap_blocks.specs.inner.OptionGrammar.{EveryOptions, OptionsRead};

/// The laws of the grammar, as the contract of a function that does nothing.
///
/// - `block`: no block's spelling is a proper prefix of another's, and no bytes spell two blocks.
/// - `one`, `every`: every file splits, in one way, into blocks and a rest that no block begins.
/// - `items`: the items of a file are the blocks of its split, and then what the rest is.
/// - `at_none`, `at_fault`, `at_block`: the items of some bytes are the end at no bytes, a refusal or a cut at a
///   fault, and at a block that block and the items of the bytes after it.
/// - `spelled`, `there`: bytes that spell a block are read as that block, whatever follows them, and if nothing
///   ends the blocks one is spelled.
/// - `section`, `interface`, `packet`: what is written for a section header, an interface or a packet spells it,
///   so it is read again as the same values, whatever follows it.
/// - `every_options`, `options`: every body spells options and a rest that ends them or runs past the body, and what is
///   read are exactly those, and the fault of the one that runs past.
pub fn grammar_laws()
    ensures block { OneBlock }
    ensures one { OneBlockSplit }
    ensures every { EveryBlockSplit }
    ensures items { BlockSplitItems }
    ensures at_none { ItemsAtNone }
    ensures at_fault { ItemsAtFault }
    ensures at_block { ItemsAtBlock }
    ensures spelled { BlockRead }
    ensures there { BlockThere }
    ensures section { SectionAgain }
    ensures interface { InterfaceAgain }
    ensures packet { PacketAgain }
    ensures every_options { EveryOptions }
    ensures options { OptionsRead }
{}
