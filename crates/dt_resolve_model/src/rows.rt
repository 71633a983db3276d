//! The rules on small sources and their trees.

ghost use Rattle.std.specs.Prelude.{◌≡◌, false, true, List, ℕ, [], ◌∷◌, ◌++◌, codes};
ghost use Rattle.dt_model.specs.Rows.{number, phandle_of};
ghost use Rattle.dt_model.specs.Source.{property};
ghost use Rattle.dt_names.specs.declared.fault.FaultKind.TheVariants.{
  BadCells,
  BadMap,
  Loop,
  NoInterrupts,
  NoMapEntry,
  NoRanges,
  NoReg,
  NotMapped,
  Overflow,
  PciBus,
};
ghost use Rattle.dt_resolve_model.specs.Answers.{answer, refuse, undetermined};
ghost use Rattle.dt_resolve_model.specs.World.{World, tree_world, meaning_world};
ghost use Rattle.dt_resolve_model.specs.Regions.{region, dma_region};
ghost use Rattle.dt_resolve_model.specs.Interrupts.{IsRoute};
ghost use Rattle.dt_resolve_model.specs.Specifiers.{specifier_route};
ghost use Rattle.dt_resolve_model.specs.Rows.{
  below_root,
  board,
  board_tree,
  circle,
  circle_of_root,
  circle_of_root_tree,
  circle_tree,
  connector,
  connector_tree,
  controller,
  device,
  dma_device,
  dma_ranges,
  dma_ranges_in,
  high_tree,
  leds,
  named_specifier,
  nexus,
  nexus_tree,
  numbers,
  pci,
  processor,
  provider,
  raw_parent,
  raw_parent_tree,
  round,
  round_tree,
  sender,
  sender_tree,
  wide_tree,
  world_of,
};

/// Addresses through a bus that maps and one that doesn't, whole, cut and not mapped; the same in the source.
pub fn addresses_of_a_board()
    ensures whole { region (tree_world board_tree) device 0 ≡ answer (record { address = 0x40001f00; size = 0x100; whole = true }) }
    ensures cut { region (tree_world board_tree) device 1 ≡ answer (record { address = 0x40001fff; size = 2; whole = false }) }
    ensures not_mapped { region (tree_world board_tree) device 2 ≡ refuse NotMapped }
    ensures no_ranges { region (tree_world board_tree) processor 0 ≡ refuse NoRanges }
    ensures whole_meant { region (world_of board board_tree) device 0 ≡ answer (record { address = 0x40001f00; size = 0x100; whole = true }) }
    ensures cut_meant { region (world_of board board_tree) device 1 ≡ answer (record { address = 0x40001fff; size = 2; whole = false }) }
    ensures not_mapped_meant { region (world_of board board_tree) device 2 ≡ refuse NotMapped }
    ensures no_ranges_meant { region (world_of board board_tree) processor 0 ≡ refuse NoRanges }
{}

/// An address past the cells of the bus above, one just below, a `reg` of no whole entry, a bus of PCI, and an address of 128 bits.
pub fn addresses_at_the_end()
    ensures past { region (tree_world (high_tree [])) (codes "b" ∷ codes "u" ∷ []) 0 ≡ refuse Overflow }
    ensures below { region (tree_world (high_tree [])) (codes "b" ∷ codes "v" ∷ []) 0 ≡ answer (record { address = 0xffffffff; size = 4; whole = true }) }
    ensures ragged { region (tree_world (high_tree [])) (below_root (codes "x")) 0 ≡ refuse BadCells }
    ensures pci_past { region (tree_world (high_tree (pci ∷ []))) (codes "b" ∷ codes "u" ∷ []) 0 ≡ refuse PciBus }
    ensures pci_below { region (tree_world (high_tree (pci ∷ []))) (codes "b" ∷ codes "v" ∷ []) 0 ≡ refuse PciBus }
    ensures wide { region (tree_world wide_tree) (below_root (codes "u")) 0
        ≡ answer (record { address = 0xffffffffffffffffffffffffffffffff; size = 1; whole = true }) }
{}

/// What a device reaches by DMA: whole, cut, outside all ranges, with more cells than its bus has, on the root's own bus, and where a bus has no
/// `dma-ranges`; the same in the source.
pub fn addresses_sent_by_a_device()
    ensures whole { dma_region (tree_world (sender_tree dma_ranges_in)) dma_device 0x80000010 16 ≡ answer
        (record { address = 0x100000010; size = 16; whole = true }) }
    ensures cut { dma_region (tree_world (sender_tree dma_ranges_in)) dma_device 0x80000000 0x1001 ≡ answer
        (record { address = 0x100000000; size = 0x1001; whole = false }) }
    ensures outside { dma_region (tree_world (sender_tree dma_ranges_in)) dma_device 0 1 ≡ refuse NotMapped }
    ensures wide { dma_region (tree_world (sender_tree dma_ranges_in)) dma_device 0x100000000 1 ≡ refuse Overflow }
    ensures root_bus { dma_region (tree_world (sender_tree dma_ranges_in)) (below_root (codes "soc")) 16 0 ≡ answer
        (record { address = 16; size = 0; whole = true }) }
    ensures root { dma_region (tree_world (sender_tree dma_ranges_in)) [] 0 0 ≡ refuse NoReg }
    ensures no_ranges { dma_region (tree_world (sender_tree [])) dma_device 0 1 ≡ refuse NoRanges }
    ensures whole_meant { dma_region (world_of (sender (numbers dma_ranges)) (sender_tree dma_ranges_in)) dma_device 0x80000010 16 ≡ answer
        (record { address = 0x100000010; size = 16; whole = true }) }
    ensures outside_meant { dma_region (world_of (sender (numbers dma_ranges)) (sender_tree dma_ranges_in)) dma_device 0 1 ≡ refuse NotMapped }
{}

/// Routes through a map with a mask, from a node without `interrupt-parent`, and by `interrupts-extended`, which wins; the same in the source.
pub fn routes_through_a_nexus()
    ensures mapped { IsRoute (tree_world nexus_tree) (below_root (codes "d@1234")) 0
        (answer (record { controller = controller; cells = 0 ∷ 5 ∷ 4 ∷ []; hops = 1 })) }
    ensures direct { IsRoute (tree_world nexus_tree) (below_root (codes "e")) 0
        (answer (record { controller = controller; cells = 0 ∷ 1 ∷ 4 ∷ []; hops = 0 })) }
    ensures extended { IsRoute (tree_world nexus_tree) (below_root (codes "f")) 0
        (answer (record { controller = controller; cells = 1 ∷ 2 ∷ 3 ∷ []; hops = 0 })) }
    ensures mapped_meant { IsRoute (world_of nexus nexus_tree) (below_root (codes "d@1234")) 0
        (answer (record { controller = controller; cells = 0 ∷ 5 ∷ 4 ∷ []; hops = 1 })) }
    ensures direct_meant { IsRoute (world_of nexus nexus_tree) (below_root (codes "e")) 0
        (answer (record { controller = controller; cells = 0 ∷ 1 ∷ 4 ∷ []; hops = 0 })) }
    ensures extended_meant { IsRoute (world_of nexus nexus_tree) (below_root (codes "f")) 0
        (answer (record { controller = controller; cells = 1 ∷ 2 ∷ 3 ∷ []; hops = 0 })) }
{}

/// Interrupt parents in a circle, of two nodes or of the root's own child.
pub fn parents_in_circles()
    ensures two { IsRoute (tree_world circle_tree) (below_root (codes "c")) 0 (refuse Loop) }
    ensures root { IsRoute (tree_world circle_of_root_tree) (below_root (codes "c")) 0 (refuse Loop) }
    ensures two_meant { IsRoute (world_of circle circle_tree) (below_root (codes "c")) 0 (refuse Loop) }
    ensures root_meant { IsRoute (world_of circle_of_root circle_of_root_tree) (below_root (codes "c")) 0 (refuse Loop) }
{}

/// A number that is no reference names a node of a blob's tree. What it means in the source is left open, unless it is written in a node.
pub fn numbers_used_as_phandles()
    ensures tree { IsRoute (tree_world raw_parent_tree) (below_root (codes "d")) 0 (answer (record { controller = controller; cells = 7 ∷ []; hops = 0 })) }
    ensures open { IsRoute (world_of (raw_parent []) raw_parent_tree) (below_root (codes "d")) 0 undetermined }
    ensures written { IsRoute (world_of (raw_parent (property (codes "phandle") (number 1) ∷ [])) raw_parent_tree) (below_root (codes "d")) 0
        (answer (record { controller = controller; cells = 7 ∷ []; hops = 0 })) }
{}

/// A specifier that is a reference: where the map's first row is cut, nothing is compared and the fault is determined; where it isn't, what comes
/// of the route hangs on the number.
pub fn specifiers_compared_late()
    ensures cut { IsRoute (world_of (named_specifier []) raw_parent_tree) (below_root (codes "d")) 0 (refuse BadMap) }
    ensures compared { IsRoute (world_of (named_specifier (phandle_of (codes "n") ++ number 1)) raw_parent_tree) (below_root (codes "d")) 0 undetermined }
{}

/// Specifiers of a connector, through a map with a mask and pass-thru, and of a provider; what no row fits, and no entry; the same in the source.
pub fn specifiers_through_a_connector()
    ensures mapped { specifier_route (tree_world connector_tree) (below_root (codes "d")) leds (codes "gpio") 0 ≡ answer
        (record { controller = provider; cells = 7 ∷ 1 ∷ []; hops = 1 }) }
    ensures direct { specifier_route (tree_world connector_tree) (below_root (codes "d")) leds (codes "gpio") 1 ≡ answer
        (record { controller = provider; cells = 3 ∷ 0 ∷ []; hops = 0 }) }
    ensures masked { specifier_route (tree_world connector_tree) (below_root (codes "d")) leds (codes "gpio") 2 ≡ answer
        (record { controller = provider; cells = 5 ∷ 1 ∷ []; hops = 1 }) }
    ensures no_row { specifier_route (tree_world connector_tree) (below_root (codes "d")) leds (codes "gpio") 3 ≡ refuse NoMapEntry }
    ensures no_entry { specifier_route (tree_world connector_tree) (below_root (codes "d")) leds (codes "gpio") 4 ≡ refuse NoInterrupts }
    ensures absent { specifier_route (tree_world connector_tree) [] leds (codes "gpio") 0 ≡ refuse NoInterrupts }
    ensures other_kind { specifier_route (tree_world connector_tree) (below_root (codes "d")) leds (codes "clock") 0 ≡ refuse BadCells }
    ensures mapped_meant { specifier_route (world_of connector connector_tree) (below_root (codes "d")) leds (codes "gpio") 0 ≡ answer
        (record { controller = provider; cells = 7 ∷ 1 ∷ []; hops = 1 }) }
    ensures direct_meant { specifier_route (world_of connector connector_tree) (below_root (codes "d")) leds (codes "gpio") 1 ≡ answer
        (record { controller = provider; cells = 3 ∷ 0 ∷ []; hops = 0 }) }
    ensures no_row_meant { specifier_route (world_of connector connector_tree) (below_root (codes "d")) leds (codes "gpio") 3 ≡ refuse NoMapEntry }
{}

/// A map that leads to its own node, in a tree and in its source: the 65th hop is a loop.
pub fn specifiers_that_go_round()
    ensures told { specifier_route (tree_world round_tree) (below_root (codes "d")) (codes "x") (codes "x") 0 ≡ refuse Loop }
    ensures meant { specifier_route (world_of round round_tree) (below_root (codes "d")) (codes "x") (codes "x") 0 ≡ refuse Loop }
{}
