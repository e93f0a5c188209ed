// What the four kinds share, in specs only: how panels, tiles, the pack buffer and the five loops are spoken of, and the laws of them.
#![tactic(auto)]
