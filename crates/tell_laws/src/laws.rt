//! What the told lines rule out, and what they speak of, each the contract of a function that does
//! nothing.

ghost use Rattle.std.specs.Prelude.{◌≡◌, ◌<◌, ◌-◌, ℕ, List, [], ◌∷◌, ◌++◌, Some};
ghost use Rattle.std.specs.List.{Contains};
ghost use Rattle.session_log.specs.Text.{ClientSession};
ghost use Rattle.serializability.specs.declared.anomaly.Anomaly.TheVariants as anomaly;
ghost use Rattle.serializability.specs.declared.anomaly.ReadAnomaly.{ReadAnomaly};
ghost use Rattle.serializability.specs.Anomalies.{anomaly_of};
ghost use Rattle.serializability.specs.Polygraph.{Choice};
ghost use Rattle.serializability.specs.Replay.{Before};
ghost use Rattle.log_definitions.specs.Serial.{IsSerialOrder};
ghost use Rattle.log_definitions.specs.Numbers.{IsWellFormedList, log_of};
ghost use Rattle.cube_laws.specs.declared.tree.TreeNode.{TreeNode};
ghost use Rattle.tell_reasons.specs.Reasons.{op_at};
ghost use Rattle.tell_proposals.specs.declared.proposal.Step.{Step};
ghost use Rattle.tell_reasons.specs.declared.why.ChainOrder.{ChainOrder};
ghost use Rattle.tell_steps.specs.Steps.{edges_in, IsLineTold};
ghost use Rattle.tell_steps.specs.Ledgers.{orders_of};
ghost use Rattle.tell_steps.specs.Told.{AreStepsTold};
ghost use Rattle.tell_steps.specs.Rounds.{IsDeadTold};
ghost use Rattle.tell_steps.specs.declared.item.Item.{Item};
ghost use Rattle.tell_trees.specs.declared.TheConstants.{MAX_LEAVES};
ghost use Rattle.tell_trees.specs.Trees.{IsTreeTold, told_leaves};
ghost use Rattle.tell_trees.specs.Visits.{leaf_count};
ghost use Rattle.tell_laws.specs.Anomalies.{IsRead, DoesUpdate};
ghost use Rattle.tell_laws.specs.Counts.{cycles_in};

/// What is told rules out every serial order. Each edge of a told step stands in all of them. There
/// is none where a cycle is told of which each edge has a reason, where told steps end in a cycle,
/// and where a tree is told that has fewer leaves than the most that are told. Of a tree as many
/// cycles are told as it has leaves, up to that number.
pub fn told_lines_rule_out_orders()
    ensures steps { (ss : List ClientSession) (order : List ℕ) → IsWellFormedList ss
        → IsSerialOrder ss order →
        (steps : List Step) (items : List Item) → AreStepsTold ss [] steps items →
        (o : ChainOrder) → Contains (orders_of steps) o → (a b : ℕ) → Contains (edges_in (log_of ss) o) (a, b)
        → Before order a b }
    ensures cycle { (ss : List ClientSession) → IsWellFormedList ss
        → (start : ℕ) (inner : List ℕ) (items : List Item) →
        IsLineTold ss [] [] (start ∷ (inner ++ start ∷ [])) items → (order : List ℕ)
        → IsSerialOrder ss order → ⊥ }
    ensures dead { (ss : List ClientSession) → IsWellFormedList ss → (items : List Item)
        → IsDeadTold ss items →
        (order : List ℕ) → IsSerialOrder ss order → ⊥ }
    ensures tree { (ss : List ClientSession) → IsWellFormedList ss
        → (choices : List Choice) (nodes : List TreeNode) (items : List Item)
        → IsTreeTold ss choices nodes items → leaf_count nodes < MAX_LEAVES → (order : List ℕ) → IsSerialOrder ss order → ⊥ }
    ensures counted { (ss : List ClientSession) (choices : List Choice) (nodes : List TreeNode)
        (items : List Item) → IsTreeTold ss choices nodes items
        → cycles_in items ≡ told_leaves (leaf_count nodes) }
{}

/// What the text of a reported anomaly speaks of is there: the operation of a read is a read, and
/// each of two updates has a first read and a last write of the key.
pub fn reported_operations_are_there()
    ensures read { (ss : List ClientSession) (kind : ReadAnomaly) (v k : ℕ)
        → anomaly_of (log_of ss) ≡ Some (anomaly.Read kind v k) → IsRead (op_at ss v (k - 1)) }
    ensures updates { (ss : List ClientSession) (x u a b : ℕ)
        → anomaly_of (log_of ss) ≡ Some (anomaly.LostUpdate x u a b)
        → DoesUpdate ss x a × DoesUpdate ss x b }
{}
